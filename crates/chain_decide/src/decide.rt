// What an event decides on a chain.
ghost use Rattle.std.specs.Prelude.{◌≡◌};
ghost use Rattle.chain_record.specs.Record.{slot_pack, slot_state};
ghost use Rattle.chain_decide.specs.Decide.{select_event, condition_event, decide_of};

use chain_decision::Decision;
use chain_others::{cell, condition, passing};
use chain_record::{Chain, Seen, slots};
use drive_record::State;
use event::Event;
use lines::Lines;
use pack_read::Pack;

// A slot's pack and state.
fn in_slot(c: Chain, slot: u8) -> (Pack, State)
    ensures { result ≡ (slot_pack c.packs slot, slot_state c.states slot) }
{
    (
        slots::pack_in(c.packs, slot),
        slots::state_in(c.states, slot),
    )
}

#[tactic(auto, unfolding(crate::specs::Decide::select_event))]
fn select(c: Chain, d: Seen, slot: u8) -> Decision
    ensures { result ≡ select_event c d slot }
{
    let l = c.lines;
    if l.select == slot {
        return chain_decision::heard(l, d.selected);
    }
    let m = Lines { select: slot, ..l };
    let (p, s) = in_slot(c, slot);
    chain_select::moved(d, l, m, p, s)
}

#[tactic(auto, unfolding(crate::specs::Decide::condition_event))]
fn condition(c: Chain, slot: u8, which: u8) -> Decision
    ensures { result ≡ condition_event c slot which }
{
    let l = c.lines;
    let (p, s) = in_slot(c, slot);
    condition::condition_at(l, p, s, slot, which)
}

#[tactic(auto, unfolding(crate::specs::Decide::decide_of))]
pub fn decide(c: Chain, e: Event) -> Decision
    ensures { result ≡ decide_of c e }
{
    let d = slots::look(c);
    let l = c.lines;
    match e {
        Event::Select(slot) => select(c, d, slot),
        Event::Heads(h) => chain_lines::head_lines(d, l, h),
        Event::WriteGate(level) => chain_lines::write_gate(d, l, level),
        Event::ReadGate(level) => chain_lines::read_gate(d, l, level),
        Event::Data(level) => chain_lines::data(d, l, level),
        Event::Request(level) => chain_lines::transfer_request(d, l, level),
        Event::Pass(us) => passing::pass(d, l, us),
        Event::Cell(position, byte) => cell::data_cell(d, l, position, byte),
        Event::Condition(slot, which) => condition(c, slot, which),
    }
}
