// What the selected drive shows the host.
ghost use Rattle.std.specs.Prelude.{◌≡◌};
ghost use Rattle.drive_cable.specs.Sum.{Weight, sum_of};

use drive_record::{State, status};

fn weight(on: bool, n: u8) -> u8
    ensures { Weight on n result }
{
    u8::from(on) * n
}

// 1 selected, 2 ready, 4 acknowledge, 8 data, 16 attention, 32 complete.
#[tactic(auto, unfolding(crate::specs::Sum::sum_of))]
pub fn sum(s: State) -> u8
    ensures { result ≡ sum_of s }
{
    let b = s.body;
    let t = s.transfer;
    let ready = weight(status::ready(b), 2);
    let acknowledge = weight(t.acknowledge == 1, 4);
    let data = weight(handshake::status_line(t) == 1, 8);
    let attention = weight(status::attention(b), 16);
    let complete = weight(status::complete(s), 32);
    1 + ready + acknowledge + data + attention + complete
}
