// One drive: what its pack says stands in its profile, what it is doing in its state. Numbers only, so that C can lend it.
#![tactic(auto)]

pub mod faults;
pub mod limits;
pub mod status;

ghost use Rattle.std.specs.Prelude.{◌≡◌};
ghost use Rattle.drive_record.specs.State.{fresh_body, blank_body, fresh_of, blank_state};

use counts::{Cylinder, Head, Micros, SectorSize};
use handshake::Transfer;
use pack_profile::{Profile, Times};

// The latched bits, at their places in the status word.
#[repr(C)]
#[derive(Clone, Copy, Default, PartialEq, Eq)]
pub struct Latched(pub u16);

// Where the heads are. offset: 0 none, 1 is +1, 2 is -1. lost: 1 where the position is lost.
// Stays: numbers, since C lends the record.
#[repr(C)]
#[derive(Clone, Copy, Default, PartialEq, Eq)]
pub struct Arm {
    pub cylinder: Cylinder,
    pub offset: u8,
    pub lost: u8,
}

// What is left of the busy time and of the head switch.
#[repr(C)]
#[derive(Clone, Copy, Default, PartialEq, Eq)]
pub struct Timers {
    pub busy: Micros,
    pub head: Micros,
}

// All of a drive but its transfer. motor: 0 stopped, 1 starting, 2 up. sector: the size now in force.
// standing: 1 while a write fault stands; wider than it needs, so that no byte is padding.
// Stays: motor, reading, writing and standing are numbers, since C lends the record.
#[repr(C)]
#[derive(Clone, Copy, Default, PartialEq, Eq)]
pub struct Body {
    pub timers: Timers,
    pub arm: Arm,
    pub latched: Latched,
    pub sector: SectorSize,
    pub head: Head,
    pub motor: u8,
    pub reading: u8,
    pub writing: u8,
    pub standing: u32,
}

#[repr(C)]
#[derive(Clone, Copy, Default, PartialEq, Eq)]
pub struct State {
    pub body: Body,
    pub transfer: Transfer,
}

// What a rule did: it was done, inhibited with nothing latched, or a fault.
#[derive(Clone, Copy)]
pub enum Outcome {
    Done,
    Inhibited,
    Fault,
}

#[derive(Clone, Copy)]
pub struct Ruled {
    pub state: State,
    pub outcome: Outcome,
}

impl Latched {
    pub const POWER_ON: u16 = 256;

    pub const PARITY: u16 = 128;

    pub const INTERFACE: u16 = 64;

    pub const INVALID: u16 = 32;

    pub const SEEK: u16 = 16;

    pub const OFFSET: u16 = 8;

    pub const WRITE: u16 = 2;

    pub const CHANGED: u16 = 1;
}

impl Body {
    pub const STOPPED: u8 = 0;

    pub const STARTING: u8 = 1;

    pub const UP: u8 = 2;

    // The status word's live bits: 13 and 12, write protected; 9, motor stopped.
    pub const PROTECTED_REMOVABLE: u16 = 8192;

    pub const PROTECTED_FIXED: u16 = 4096;

    pub const MOTOR_STOPPED: u16 = 512;

    // The highest head, the longest busy time and the longest head switch that a record may hold.
    pub const LAST_HEAD: u8 = 15;

    pub const LONGEST_BUSY: u32 = Times::LONG;

    pub const LONGEST_SWITCH: u32 = Times::SHORT;

    fn fresh(p: Profile) -> Body
        ensures { result ≡ fresh_body p }
    {
        Body {
            latched: Latched(Latched::POWER_ON),
            sector: p.shape.sector,
            motor: Body::UP,
            ..Body::blank()
        }
    }

    // What stands where no drive is: all zeros.
    fn blank() -> Body
        ensures { result ≡ blank_body }
    {
        Body::default()
    }
}

impl State {
    pub fn fresh(p: Profile) -> State
        ensures { result ≡ fresh_of p }
    {
        let body = Body::fresh(p);
        let transfer = Transfer::none();
        State { body, transfer }
    }

    pub fn blank() -> State
        ensures { result ≡ blank_state }
    {
        State::default()
    }
}
