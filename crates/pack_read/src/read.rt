// Reading a pack file from its end. Only trailers are looked at: the cost does not grow with the media.
ghost use Rattle.std.specs.Prelude.{◌≡◌, ℕ, ◌-◌, ◌≤◌, ◌<◌, length, set};
ghost use Rattle.pack_read.specs.Refusal.{read_number, read_place};
ghost use Rattle.pack_read.specs.Packs.{no_packs, fitted_pack};
ghost use Rattle.pack_read.specs.Read.{checked, last_pack, read_back, read_all};

use crate::{Pack, Refusal};
use counts::{Place, SLOTS};
use pack_profile::Profile;

// Why a file is refused, and where the pack ends that is; 0 where the file is too long.
#[derive(Clone, Copy)]
pub struct Refused {
    pub why: Refusal,
    pub place: Place,
}

// Document 01's number of an answer; 0 where nothing is refused.
// Stays: no plainer: Result and u8 are std's, so a From may stand in no crate here, and a type around it is taken off at once.
pub fn number<T: Drop>(a: Result<T, Refused>) -> u8
    ensures { result ≡ read_number a }
{
    match a {
        Ok(_) => 0,
        Err(refused) => refused.why.into(),
    }
}

// The place that an answer names; 0 where nothing is refused.
// Stays: no plainer: Result and u32 are std's, so a From may stand in no crate here, and a type around it is taken off at once.
pub fn place<T: Drop>(a: Result<T, Refused>) -> u32
    ensures { result ≡ read_place a }
{
    match a {
        Ok(_) => 0,
        Err(refused) => refused.place.0,
    }
}

// The pack with the trailer t that ends at n, limit the slot of the pack behind it: where it starts, with its fields.
#[tactic(auto, unfolding(crate::specs::Read::checked, crate::specs::Read::verdict_of))]
fn check(t: &[u8], n: u32, limit: u8) -> Result<(Place, Profile), Refusal>
    ensures { result ≡ checked t.now n limit }
{
    let d = pack_trailer::distance_of(t);
    if (d as usize) < pack_trailer::LENGTH || n < d {
        return Err(Refusal::Distance);
    }
    if pack_trailer::form_of(t) != pack_trailer::FORM {
        return Err(Refusal::Form);
    }
    let p = pack_trailer::profile_of(t);
    let good = pack_trailer::zeros(t) & pack_profile::valid::valid(p);
    if !good {
        return Err(Refusal::Field);
    }
    if d as usize != pack_profile::medium(p.shape) + pack_trailer::LENGTH {
        return Err(Refusal::Size);
    }
    if limit <= p.slot {
        return Err(Refusal::Order);
    }
    Ok((Place(n - d), p))
}

#[tactic(auto, unfolding(crate::specs::Read::last_pack))]
fn last_pack(file: &[u8], limit: u8) -> Result<(Place, Profile), Refusal>
    requires { length file.now ≤ 2_147_483_647 }
    ensures { result ≡ last_pack file.now limit }
{
    let n = file.len();
    if n < pack_trailer::LENGTH {
        return Err(Refusal::Short);
    }
    check(&file[n - pack_trailer::LENGTH..], n as u32, limit)
}

fn stored(found: [Pack; SLOTS], place: Place, p: Profile) -> [Pack; SLOTS]
    requires { (1 ≤ p.slot) × (p.slot ≤ 7) }
    ensures { result ≡ set found (p.slot - 1) (fitted_pack place p) }
{
    let i = (p.slot - 1) as usize;
    let mut next = found;
    next[i] = Pack {
        fitted: 1,
        place,
        profile: p,
    };
    next
}

// The last pack is read, then what is left in front of it.
fn read_back(file: &[u8], limit: u8, found: [Pack; SLOTS]) -> Result<[Pack; SLOTS], Refused>
    requires { length file.now ≤ 2_147_483_647 }
    ensures { (k : ℕ) → length file.now < k → result ≡ read_back k file.now limit found }
{
    let n = file.len();
    if n == 0 {
        return Ok(found);
    }
    let (place, profile) = last_pack(file, limit).map_err(|why| Refused {
        why,
        place: Place(n as u32),
    })?;
    let next = stored(found, place, profile);
    let start = place.0 as usize;
    read_back(&file[..start], profile.slot, next)
}

// The packs of a file, each at its slot, or a refusal with its place.
#[tactic(auto, unfolding(crate::specs::Read::read_all))]
pub fn read(file: &[u8]) -> Result<[Pack; SLOTS], Refused>
    ensures { result ≡ read_all file.now }
{
    if Pack::LONGEST < file.len() {
        return Err(Refused {
            why: Refusal::Large,
            place: Place(0),
        });
    }
    let none = Pack::none();
    read_back(file, 8, [none; SLOTS])
}
