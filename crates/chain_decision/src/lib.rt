// A decision, what an event does before anything is done: the lines, the states that change, the word carried out, and what is answered or touched.
#![tactic(auto)]

ghost use Rattle.std.specs.Prelude.{◌≡◌};
ghost use Rattle.chain_decision.specs.Decision.{outcome_answer, say_of, heard_of, ruled_of, ruled_done};

use counts::{Cylinder, Head, Micros, Position};
use drive_record::{Outcome, Ruled, State};
use event::Answer;
use lines::Lines;

// Which states change: none, one, the one left and the one entered by select, or all by time.
#[derive(Clone, Copy)]
pub enum Change {
    Nothing,
    One(u8, State),
    Two(u8, State, u8, State),
    Pass(Micros),
}

// A cell of the chain: a byte of the medium of a slot's pack.
#[derive(Clone, Copy)]
pub struct Spot {
    pub slot: u8,
    pub cylinder: Cylinder,
    pub head: Head,
    pub position: Position,
}

// What is answered at once, or which cell is read or written.
#[derive(Clone, Copy)]
pub enum Deed {
    Say(Answer),
    Read(Spot),
    Write(Spot, u8),
}

// What an event does, before anything is done. word: the one that the selected drive carries out, if it does.
#[derive(Clone, Copy)]
pub struct Decision {
    pub lines: Lines,
    pub change: Change,
    pub word: Option<u32>,
    pub deed: Deed,
}

// The answer to what a rule did.
// Stays: no plainer: an impl From would stand in Outcome's crate or Answer's, and that one would have to know the other.
pub fn answer_of(o: Outcome) -> Answer
    ensures { result ≡ outcome_answer o }
{
    match o {
        Outcome::Done => Answer::Taken,
        Outcome::Inhibited => Answer::Inhibited,
        Outcome::Fault => Answer::Fault,
    }
}

pub fn say(l: Lines, a: Answer) -> Decision
    ensures { result ≡ say_of l a }
{
    Decision {
        lines: l,
        change: Change::Nothing,
        word: None,
        deed: Deed::Say(a),
    }
}

// The lines are taken and no drive changes.
#[tactic(auto, unfolding(crate::specs::Decision::heard_of))]
pub fn heard(l: Lines, on: bool) -> Decision
    ensures { result ≡ heard_of l on }
{
    if on {
        return say(l, Answer::Taken);
    }
    say(l, Answer::Unselected)
}

// A rule was applied to the selected drive, and a word carried out, if one was.
pub fn ruled(l: Lines, word: Option<u32>, r: Ruled) -> Decision
    ensures { result ≡ ruled_of l word r }
{
    Decision {
        lines: l,
        change: Change::One(l.select, r.state),
        word,
        deed: Deed::Say(answer_of(r.outcome)),
    }
}

pub fn done(s: State) -> Ruled
    ensures { result ≡ ruled_done s }
{
    Ruled {
        state: s,
        outcome: Outcome::Done,
    }
}
