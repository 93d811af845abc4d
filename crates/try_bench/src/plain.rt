// A word handed to the plain word rules, on the selected drive's state.
use chain_record::{Chain, slots};
use counts::SLOTS;
use drive_record::State;

#[derive(Clone, Copy)]
pub struct Answered {
    pub chain: Chain,
    // seventeen bits
    pub response: Option<u32>,
    // an answer's number
    // Stays: no plainer: it is held against the number that the last fall was answered.
    pub answer: u8,
}

// The chain with another state in the selected slot.
// Stays: no plainer: put is chain_apply's own, and a decision made up for apply would say more than this one store.
pub fn with_selected(c: Chain, s: State) -> Chain {
    let slot = usize::from(c.lines.select);
    let mut after = c;
    if 1 <= slot && slot <= SLOTS {
        after.states[slot - 1] = s;
    }
    after
}

// The word at once.
pub fn plain(c: Chain, word: u32) -> Answered {
    let slot = c.lines.select;
    let p = slots::pack_in(c.packs, slot);
    let s = slots::state_in(c.states, slot);
    let a = word_rules::plain(p.profile, s, word);
    Answered {
        chain: with_selected(c, a.state),
        response: a.told,
        answer: event::numbers::number(chain_decision::answer_of(a.outcome)),
    }
}
