// Transfer request rising and falling at the selected drive.
ghost use Rattle.std.specs.Prelude.{◌≡◌};
ghost use Rattle.drive_cable.specs.Request.{after_word, gated_b, request_rises, request_falls};

use drive_record::{Outcome, Ruled, State, faults, status};
use handshake::{Fallen, Transfer};
use lines::Lines;
use pack_profile::Profile;

fn gated(l: Lines) -> bool
    ensures { result ≡ gated_b l }
{
    (l.writegate == 1) | (l.readgate == 1)
}

#[tactic(auto, unfolding(crate::specs::Request::request_rises))]
pub fn rises(s: State, l: Lines) -> Ruled
    ensures { result ≡ request_rises l s }
{
    let b = s.body;
    let t = s.transfer;
    faults::held(b, handshake::rise(t, gated(l), status::calm(b), l.command))
}

// The response is fixed, or there is none and the transfer ends.
fn after_word(told: Option<u32>) -> Transfer
    ensures { result ≡ after_word told }
{
    match told {
        None => Transfer::none(),
        Some(response) => Transfer::responding(response),
    }
}

#[tactic(auto, unfolding(crate::specs::Request::request_falls))]
pub fn falls(p: Profile, s: State) -> Ruled
    ensures { result ≡ request_falls p s }
{
    let b = s.body;
    let t = s.transfer;
    let f = handshake::fall(t);
    match f {
        Fallen::Keep(transfer) => Ruled {
            state: State { body: b, transfer },
            outcome: Outcome::Done,
        },
        Fallen::Carry(n) => {
            let c = word_rules::carry(p, b, n);
            Ruled {
                state: State {
                    body: c.body,
                    transfer: after_word(c.told),
                },
                outcome: c.outcome,
            }
        }
    }
}
