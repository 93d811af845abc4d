// Kind 8: a condition in a slot.
ghost use Rattle.std.specs.Prelude.{◌≡◌};
ghost use Rattle.chain_others.specs.Condition.{fixed_change, condition_at};

use chain_decision::{Change, Decision};
use drive_record::{State, faults};
use event::Answer;
use lines::Lines;
use pack_read::Pack;

// A fixed drive's medium does not change.
#[tactic(auto, unfolding(crate::specs::Condition::fixed_change))]
fn fixed_change(p: Pack, which: u8) -> bool
    ensures { result ≡ fixed_change p which }
{
    (which == 3) & !pack_profile::general::removable(p.profile.general)
}

// A condition at a slot that has this pack and this state.
// Stays: no plainer. The rules take parts of p and s and the decision takes l, so a struct of them would be taken apart at once.
#[tactic(auto, unfolding(crate::specs::Condition::condition_at))]
pub fn condition_at(l: Lines, p: Pack, s: State, slot: u8, which: u8) -> Decision
    ensures { result ≡ condition_at l p s slot which }
{
    if !pack_read::fitted(p) | fixed_change(p, which) {
        return chain_decision::say(l, Answer::Inapplicable);
    }
    let body = faults::condition(s.body, which);
    Decision {
        change: Change::One(slot, State { body, ..s }),
        ..chain_decision::say(l, Answer::Taken)
    }
}
