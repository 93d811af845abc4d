// Kind 0: the drive select code changes.
#![tactic(auto)]

ghost use Rattle.std.specs.Prelude.{◌≡◌};
ghost use Rattle.chain_select.specs.Select.{either_answer, left_alone, both_of, moved_of};

use chain_decision::{Change, Decision, Deed};
use chain_record::Seen;
use drive_record::{Outcome, Ruled, State};
use drive_rules::{heads, left};
use event::Answer;
use lines::Lines;
use pack_read::Pack;

// 5 where the drive left is at fault, else what comes of the one entered.
fn either(left: Outcome, other: Answer) -> Answer
    ensures { result ≡ either_answer left other }
{
    match left {
        Outcome::Fault => Answer::Fault,
        Outcome::Done | Outcome::Inhibited => other,
    }
}

// A drive is left and none is entered.
fn left_alone(slot: u8, left: Ruled, m: Lines) -> Decision
    ensures { result ≡ left_alone slot left m }
{
    Decision {
        lines: m,
        change: Change::One(slot, left.state),
        word: None,
        deed: Deed::Say(either(left.outcome, Answer::Unselected)),
    }
}

fn both(slot: u8, left: Ruled, entered: Ruled, m: Lines) -> Decision
    ensures { result ≡ both_of slot left entered m }
{
    Decision {
        lines: m,
        change: Change::Two(slot, left.state, m.select, entered.state),
        word: None,
        deed: Deed::Say(either(left.outcome, chain_decision::answer_of(entered.outcome))),
    }
}

// The select code has changed, from l to m: the drive seen is left, the pack p's, with the state s, is entered.
// Stays: no plainer. The rules take parts of d, p and s and the decision takes l, so a struct of any two would be taken apart at once.
#[tactic(auto, unfolding(crate::specs::Select::moved_of))]
pub fn moved(d: Seen, l: Lines, m: Lines, p: Pack, s: State) -> Decision
    ensures { result ≡ moved_of d l m p s }
{
    if pack_read::fitted(p) {
        let entered = heads::meets(p.profile, s, l.heads);
        if d.selected {
            return both(l.select, left::left(d.state), entered, m);
        }
        return chain_decision::ruled(m, None, entered);
    }
    if d.selected {
        return left_alone(l.select, left::left(d.state), m);
    }
    chain_decision::heard(m, false)
}
