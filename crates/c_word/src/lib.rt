// The plain word rules on a slot of the record.
#![tactic(auto)]

ghost use Rattle.std.specs.Prelude.{◌≡◌};
ghost use Rattle.c_word.specs.Words.{word_code, state_in, sent_of, word_at, slot_word};

use c_pack::{Coded, HIGH_HALF, SECOND_BYTE, SLOT};
use chain_decision::{Change, Decision};
use chain_record::{Chain, slots};
use drive_record::State;
use event::Answer;
use handshake::Transfer;
use pack_profile::Profile;

// An answer's number, 1 in the second byte where there is a response, and the response in the high half.
fn code(answer: Answer, told: Option<u32>) -> u64
    ensures { result ≡ word_code answer told }
{
    let number = event::numbers::number(answer) as u64;
    match told {
        None => number,
        Some(response) => number + SECOND_BYTE + response as u64 * HIGH_HALF,
    }
}

// A slot's state put into the record.
// Stays: no plainer. state_in is by definition what apply does with such a decision (specs/Words), and put is chain_apply's own.
fn state_in(c: Chain, slot: u8, s: State) -> Chain
    ensures { result ≡ state_in c slot s }
{
    let d = Decision {
        change: Change::One(slot, s),
        ..chain_decision::say(c.lines, Answer::Taken)
    };
    chain_apply::apply(c, d)
}

#[tactic(auto, unfolding(crate::specs::Words::sent_of))]
fn sent(c: Chain, p: Profile, s: State, slot: u8, n: u32) -> Coded<Chain>
    ensures { result ≡ sent_of c p s slot n }
{
    let answered = word_rules::plain(p, s, n);
    Coded {
        lent: state_in(c, slot, answered.state),
        code: code(chain_decision::answer_of(answered.outcome), answered.told),
    }
}

// The word n to a slot, 1 to 7, of a record that may be malformed.
#[tactic(auto, unfolding(crate::specs::Words::word_at))]
fn word_at(c: Chain, slot: u8, n: u32) -> Coded<Chain>
    ensures { result ≡ word_at c slot n }
{
    if !chain_sound::is_sound(c) {
        return Coded::refused(c, Answer::Malformed);
    }
    let p = slots::pack_in(c.packs, slot);
    if !pack_read::fitted(p) {
        return Coded::refused(c, Answer::Inapplicable);
    }
    sent(c, p.profile, slots::state_in(c.states, slot), slot, n)
}

#[tactic(auto, unfolding(crate::specs::Words::slot_word))]
pub fn word(c: Chain, slot: u32, n: u32) -> Coded<Chain>
    ensures { result ≡ slot_word c slot n }
{
    if (slot < 1) | (slot > SLOT) | (n > Transfer::LARGEST) {
        return Coded::refused(c, Answer::OutOfRange);
    }
    word_at(c, slot as u8, n)
}
