// Command words carried out on a drive: what each does there and what it tells; the plain word rules.
#![tactic(auto)]

pub mod responses;

ghost use Rattle.std.specs.Prelude.{◌≡◌};
ghost use Rattle.word_rules.specs.Rules.{saying, carry_of, refuses_b, refused_plain, answering, plain_of};

use drive_record::{Body, Latched, Outcome, State, faults, status};
use pack_profile::Profile;
use word_table::{Effect, decide};

// A word carried out on a drive, which leaves the transfer alone. told: the response, a word of seventeen bits, its parity last.
#[derive(Clone, Copy)]
pub struct Carried {
    pub body: Body,
    pub told: Option<u32>,
    pub outcome: Outcome,
}

// A word by the plain word rules: the drive that it leaves, the response, and whether a fault rule applied.
// Stays: no plainer: carry_of and plain_of name body and state, and a third name for both would say less than either.
#[derive(Clone, Copy)]
pub struct Answered {
    pub state: State,
    pub told: Option<u32>,
    pub outcome: Outcome,
}

fn say(b: Body, word: u16) -> Carried
    ensures { result ≡ saying word b }
{
    Carried {
        body: b,
        told: Some(responses::with_parity(word)),
        outcome: Outcome::Done,
    }
}

// A whole word, carried out.
#[tactic(auto, unfolding(crate::specs::Rules::done_of, crate::specs::Rules::carry_of))]
pub fn carry(p: Profile, b: Body, n: u32) -> Carried
    ensures { result ≡ carry_of p b n }
{
    match decide::effect(p, b, n) {
        Err(fault) => Carried {
            body: faults::latch(b, fault.bit()),
            told: None,
            outcome: Outcome::Fault,
        },
        Ok(Effect::Status) => say(b, status::status(p, b)),
        Ok(Effect::Configuration(modifier)) => say(
            b,
            responses::configuration(p, b.sector, modifier),
        ),
        Ok(Effect::Does(act)) => Carried {
            body: word_acts::acted(p.times, b, act),
            told: None,
            outcome: Outcome::Done,
        },
    }
}

// A drive that reads or writes, or whose command complete is false.
fn refuses(s: State) -> bool
    ensures { result ≡ refuses_b s }
{
    s.body.reading == 1 || s.body.writing == 1 || !status::complete(s)
}

fn refuse(s: State) -> Answered
    ensures { result ≡ refused_plain s }
{
    let body = faults::latch(s.body, Latched::INTERFACE);
    Answered {
        state: State { body, ..s },
        told: None,
        outcome: Outcome::Fault,
    }
}

fn answer(s: State, c: Carried) -> Answered
    ensures { result ≡ answering s c }
{
    let body = c.body;
    Answered {
        state: State { body, ..s },
        told: c.told,
        outcome: c.outcome,
    }
}

// The plain word rules: a drive and a word with its parity bit at once.
#[tactic(auto, unfolding(crate::specs::Rules::plain_of))]
pub fn plain(p: Profile, s: State, n: u32) -> Answered
    ensures { result ≡ plain_of p s n }
{
    if refuses(s) {
        return refuse(s);
    }
    answer(s, carry(p, s.body, n))
}
