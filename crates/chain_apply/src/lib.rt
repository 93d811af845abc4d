// A decision put into the record.
#![tactic(auto)]

ghost use Rattle.std.specs.Prelude.{◌≡◌};
ghost use Rattle.counts.specs.Slots.{map_with};
ghost use Rattle.chain_apply.specs.Apply.{put_of, pass_slot, with_states, applied};

use chain_decision::{Change, Decision};
use chain_record::Chain;
use counts::{LAST_SLOT, Micros};
use drive_record::State;
use drive_rules::time;
use pack_read::Pack;
use std::array;

// The record with the state of a slot put in place of what it was.
// Stays: no plainer: c goes from put to put and slot and s come out of a Change, so a struct would be made for each call.
#[tactic(auto, unfolding(crate::specs::Apply::put_of))]
fn put(c: Chain, slot: u8, s: State) -> Chain
    ensures { result ≡ with_states c (put_of c.states slot s) }
{
    let mut e = c;
    if (slot >= 1) & (slot <= LAST_SLOT) {
        e.states[(slot - 1) as usize] = s;
    }
    e
}

// Time passes on a fitted drive.
#[tactic(auto, unfolding(crate::specs::Apply::pass_slot))]
fn pass_slot(p: Pack, s: State, us: Micros) -> State
    ensures { result ≡ pass_slot us p s }
{
    if !pack_read::fitted(p) {
        return s;
    }
    time::pass(s, us).state
}

// Time passes on every drive. Not inlined: the compiler would take the whole record apart for it, at the other decisions too.
#[inline(never)]
fn passed(c: Chain, us: Micros) -> Chain
    ensures { result ≡ with_states c (map_with (pass_slot us) c.packs c.states) }
{
    Chain {
        states: array::from_fn(|i| pass_slot(c.packs[i], c.states[i], us)),
        ..c
    }
}

// The record after a decision. A state is put by its place, since the record is large.
#[tactic(auto, unfolding(crate::specs::Apply::applied, crate::specs::Apply::changed_of))]
pub fn apply(c: Chain, d: Decision) -> Chain
    ensures { result ≡ applied c d }
{
    let e = Chain {
        lines: d.lines,
        ..c
    };
    match d.change {
        Change::Nothing => e,
        Change::One(slot, s) => put(e, slot, s),
        Change::Two(slot, s, other, t) => put(put(e, slot, s), other, t),
        Change::Pass(us) => passed(e, us),
    }
}
