// Latched bits: the one place where a bit is latched, the conditions that come from outside, and a transfer dropped.
ghost use Rattle.std.specs.Prelude.{◌≡◌};
ghost use Rattle.drive_record.specs.Faults.{latch_of, condition_of, dropped_of, held_of};

use crate::{Arm, Body, Latched, Outcome, Ruled, State};
use handshake::Transfer;

// A bit of the status word, by its value. Latching any bit ends writing.
#[tactic(auto, unfolding(crate::specs::Faults::latch_of))]
pub fn latch(b: Body, bit: u16) -> Body
    ensures { result ≡ latch_of bit b }
{
    Body {
        latched: Latched(b.latched.0 | bit),
        writing: 0,
        ..b
    }
}

// 1 begins a write fault, 2 seek error, 3 medium changed, 4 ends the write fault.
// Stays: condition promises its answer for every number (condition_of): each but these three does what 4 does.
#[tactic(auto, unfolding(crate::specs::Faults::condition_of, crate::specs::Faults::latch_of))]
pub fn condition(b: Body, which: u8) -> Body
    ensures { result ≡ condition_of which b }
{
    match which {
        1 => Body {
            standing: 1,
            ..latch(b, Latched::WRITE)
        },
        2 => Body {
            arm: Arm { lost: 1, ..b.arm },
            reading: 0,
            ..latch(b, Latched::SEEK)
        },
        3 => latch(b, Latched::CHANGED),
        _ => Body { standing: 0, ..b },
    }
}

// Bit 6, and the transfer is dropped.
pub fn dropped(b: Body) -> State
    ensures { result ≡ dropped_of b }
{
    let body = latch(b, Latched::INTERFACE);
    let transfer = Transfer::none();
    State { body, transfer }
}

// What a rise of request or a wait does to the drive: its transfer goes on, or, with none, is dropped for a fault.
pub fn held(b: Body, h: Option<Transfer>) -> Ruled
    ensures { result ≡ held_of b h }
{
    match h {
        Some(transfer) => Ruled {
            state: State { body: b, transfer },
            outcome: Outcome::Done,
        },
        None => Ruled {
            state: dropped(b),
            outcome: Outcome::Fault,
        },
    }
}
