// When the chain record is one that the rules could leave.
#![tactic(auto)]

ghost use Rattle.std.specs.Prelude.{◌≡◌};
ghost use Rattle.counts.specs.Slots.{all_with};
ghost use Rattle.chain_sound.specs.SoundChain.{pack_b, placed_of, file_start, places_b, drive_b, chain_sound_b};

use chain_record::Chain;
use counts::{Place, SLOTS};
use drive_cable::sound;
use drive_record::State;
use lines::Lines;
use pack_read::Pack;

// A fitted slot's pack: valid, in its own slot, and where the packs in front of it end.
fn pack_ok(p: Pack, slot: u8, at: Place) -> bool
    ensures { result ≡ pack_b p slot at }
{
    let profile = p.profile;
    (profile.slot == slot) & (p.place == at) & pack_profile::valid::valid(profile)
}

// Where the packs up to a slot's end, if its pack may stand.
#[tactic(auto, unfolding(crate::specs::SoundChain::placed_of))]
fn place(p: Pack, slot: u8, at: Place) -> Option<Place>
    ensures { result ≡ placed_of p slot at }
{
    if p.fitted > 1 {
        return None;
    }
    if !pack_read::fitted(p) {
        return Some(at);
    }
    let shape = p.profile.shape;
    let end = p.place.0 as usize + pack_profile::medium(shape) + pack_trailer::LENGTH;
    if end > Pack::LONGEST {
        return None;
    }
    if !pack_ok(p, slot, at) {
        return None;
    }
    Some(Place(end as u32))
}

// Every pack stands where reading the file would put it, and the last ends at the file's end.
fn packs_ok(packs: &[Pack; SLOTS], end: Place) -> bool
    ensures { result ≡ places_b packs.now 1 file_start end }
{
    let mut at = Place(0);
    for (i, p) in packs.iter().enumerate() {
        let Some(next) = place(*p, i as u8 + 1, at) else {
            return false;
        };
        at = next;
    }
    at == end
}

// A slot's drive, with the lines.
// Stays: no plainer. The pack gives its profile alone and sound takes s and l, so a struct of them would be taken apart at once.
#[tactic(auto, unfolding(crate::specs::SoundChain::drive_b))]
fn drive_ok(p: Pack, s: State, l: Lines) -> bool
    ensures { result ≡ drive_b l p s }
{
    if !pack_read::fitted(p) {
        return true;
    }
    let profile = p.profile;
    sound::sound(profile, s, l, l.select == profile.slot)
}

// Every drive is one that the rules could leave.
// Stays: tried `.all(..)` on the zip: that its calls, stopped at the first that fails, give all_with stayed open (`returns`).
fn drives_ok(packs: &[Pack; SLOTS], states: &[State; SLOTS], l: Lines) -> bool
    ensures { result ≡ all_with (drive_b l) packs.now states.now }
{
    for (p, s) in packs.iter().zip(states) {
        if !drive_ok(*p, *s, l) {
            return false;
        }
    }
    true
}

// The record isn't malformed. It is large, so its parts are lent.
#[tactic(auto, unfolding(crate::specs::SoundChain::chain_sound_b))]
pub fn is_sound(c: Chain) -> bool
    ensures { result ≡ chain_sound_b c }
{
    let l = c.lines;
    if !lines::kept(l) {
        return false;
    }
    if !packs_ok(&c.packs, c.length) {
        return false;
    }
    drives_ok(&c.packs, &c.states, l)
}
