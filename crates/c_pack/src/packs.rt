// The status of a pack file, and a pack laid, in numbers.
ghost use Rattle.std.specs.Prelude.{◌≡◌, length};
ghost use Rattle.pack_lay.specs.Lay.{laid_number, laid_answer, laid_bytes};
ghost use Rattle.c_pack.specs.FilePacks.{count_of, packs_of, slot_or, pack_at_slot};

use crate::{Coded, SECOND_BYTE, SLOT, fit};
use counts::SLOTS;
use event::Answer;
use pack_profile::Profile;
use pack_read::{Pack, read};

// How many of the seven slots have a pack.
fn count(packs: [Pack; SLOTS]) -> u8
    ensures { result ≡ count_of packs }
{
    packs.iter().filter(|p| pack_read::fitted(**p)).count() as u8
}

// How many packs a file has, in the second byte; or why it is refused, and where in the high half.
#[tactic(auto, unfolding(crate::specs::FilePacks::packs_of))]
pub fn packs(file: &[u8]) -> u64
    ensures { result ≡ packs_of file.now }
{
    match read::read(file) {
        Ok(packs) => count(packs) as u64 * SECOND_BYTE,
        Err(refused) => fit::refusal_code(refused),
    }
}

// The pack of a slot in place of the old one, if the slot has one.
fn slot_or(p: Pack, old: Pack) -> Coded<Pack>
    ensures { result ≡ slot_or p old }
{
    if !pack_read::fitted(p) {
        return Coded::refused(old, Answer::Inapplicable);
    }
    Coded { lent: p, code: 0 }
}

// The pack in a slot, 1 to 7, of a file, in place of the old one, which a refusal leaves.
#[tactic(auto, unfolding(crate::specs::FilePacks::pack_at_slot))]
pub fn pack_at(old: Pack, file: &[u8], slot: u32) -> Coded<Pack>
    ensures { result ≡ pack_at_slot old file.now slot }
{
    if (slot < 1) | (slot > SLOT) {
        return Coded::refused(old, Answer::OutOfRange);
    }
    match read::read(file) {
        Ok(packs) => slot_or(chain_record::slots::pack_in(packs, slot as u8), old),
        Err(refused) => Coded {
            lent: old,
            code: fit::refusal_code(refused),
        },
    }
}

// A pack laid at the start of the lent part: 0, 33, 36 or 37.
// Stays: the C interface. `esdi_lay` answers a number.
pub fn laid(p: Profile, buffer: &mut [u8]) -> u32
    ensures { (result ≡ laid_number (laid_answer p (length buffer.old))) × (buffer.new ≡ laid_bytes p buffer.old) }
{
    pack_lay::number(pack_lay::lay(p, buffer)) as u32
}
