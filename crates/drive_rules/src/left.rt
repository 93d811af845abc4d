// The drive left by select.
ghost use Rattle.std.specs.Prelude.{◌≡◌};
ghost use Rattle.drive_rules.specs.DriveLeft.{left_of};

use drive_record::{Body, Outcome, Ruled, State, faults};

// Bit 6 with a transfer open or while writing, both dropped; reading ends.
#[tactic(auto, unfolding(crate::specs::DriveLeft::left_of))]
pub fn left(s: State) -> Ruled
    ensures { result ≡ left_of s }
{
    let body = Body {
        reading: 0,
        ..s.body
    };
    let transfer = s.transfer;
    if handshake::is_open(transfer) | (s.body.writing == 1) {
        return Ruled {
            state: faults::dropped(body),
            outcome: Outcome::Fault,
        };
    }
    Ruled {
        state: State { body, transfer },
        outcome: Outcome::Done,
    }
}
