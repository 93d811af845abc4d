// Kind 6: microseconds pass.
ghost use Rattle.std.specs.Prelude.{◌≡◌};
ghost use Rattle.chain_others.specs.Passing.{pass_event};

use chain_decision::{Change, Decision};
use chain_record::Seen;
use counts::Micros;
use event::Answer;
use lines::Lines;

// Time passes on all; only the selected drive can have a transfer to drop.
// Stays: no plainer. The rules take d's parts and the decision takes l, so a struct of both would be taken apart at once.
#[tactic(auto, unfolding(crate::specs::Passing::pass_event))]
pub fn pass(d: Seen, l: Lines, us: Micros) -> Decision
    ensures { result ≡ pass_event d l us }
{
    let answer = if d.selected & handshake::late(d.state.transfer, us) {
        Answer::Fault
    } else {
        Answer::Taken
    };
    Decision {
        change: Change::Pass(us),
        ..chain_decision::say(l, answer)
    }
}
