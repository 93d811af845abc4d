// The write gate and the read gate, rising and falling at the selected drive, and the cells that they let through.
#![tactic(auto)]

pub mod cell;

ghost use Rattle.std.specs.Prelude.{◌≡◌};
ghost use Rattle.drive_gates.specs.Gates.{usable_b, faulted_by, write_rises, read_rises, write_falls, read_falls};

use drive_record::{Body, Latched, Outcome, Ruled, State, faults, status};
use pack_profile::Profile;

// Ready, command complete, position known and head present.
#[tactic(auto, unfolding(crate::specs::Gates::usable_b))]
pub fn usable(p: Profile, s: State) -> bool
    ensures { result ≡ usable_b p s }
{
    let b = s.body;
    status::ready(b)
        & status::complete(s)
        & (b.arm.lost == 0)
        & ((b.head.0 as u16) < p.shape.heads.0)
}

fn faulted(s: State, b: Body, bit: u16) -> Ruled
    ensures { result ≡ faulted_by bit b s }
{
    let body = faults::latch(b, bit);
    Ruled {
        state: State { body, ..s },
        outcome: Outcome::Fault,
    }
}

// Write gate rising; readgate is the read gate's level.
#[tactic(auto, unfolding(crate::specs::Gates::write_rises))]
pub fn write_rises(p: Profile, s: State, readgate: u16) -> Ruled
    ensures { result ≡ write_rises p readgate s }
{
    let b = s.body;
    if readgate == 1 {
        let e = Body { reading: 0, ..b };
        return faulted(s, e, Latched::INTERFACE);
    }
    if status::attention(b) {
        return Ruled {
            state: s,
            outcome: Outcome::Inhibited,
        };
    }
    if b.arm.offset != 0 {
        return faulted(s, b, Latched::OFFSET);
    }
    if !usable(p, s) {
        return faulted(s, b, Latched::WRITE);
    }
    if p.protected == 1 {
        return faulted(s, b, Latched::WRITE);
    }
    let body = Body { writing: 1, ..b };
    Ruled {
        state: State { body, ..s },
        outcome: Outcome::Done,
    }
}

// Stays: no plainer. write_falls and read_falls over a trait Gate would write each field's setting in its impl, and that is all they do.
pub fn write_falls(s: State) -> State
    ensures { result ≡ write_falls s }
{
    let body = Body {
        writing: 0,
        ..s.body
    };
    State { body, ..s }
}

// Read gate rising; writegate is the write gate's level.
#[tactic(auto, unfolding(crate::specs::Gates::read_rises))]
pub fn read_rises(p: Profile, s: State, writegate: u16) -> Ruled
    ensures { result ≡ read_rises p writegate s }
{
    let b = s.body;
    if writegate == 1 {
        return faulted(s, b, Latched::INTERFACE);
    }
    if !usable(p, s) {
        return Ruled {
            state: s,
            outcome: Outcome::Inhibited,
        };
    }
    let body = Body { reading: 1, ..b };
    Ruled {
        state: State { body, ..s },
        outcome: Outcome::Done,
    }
}

pub fn read_falls(s: State) -> State
    ensures { result ≡ read_falls s }
{
    let body = Body {
        reading: 0,
        ..s.body
    };
    State { body, ..s }
}
