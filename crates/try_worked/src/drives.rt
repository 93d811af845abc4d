// The drives that words are sent to, and the states that they are in.
use counts::{Cylinder, Heads, Micros, PerCylinder, Position, SectorSize};
use drive_record::{Arm, Body, Latched, State, Timers};
use handshake::Transfer;
use pack_profile::{Profile, Shape, Times};
use std::fmt;

#[derive(Clone, Copy)]
pub enum Drive {
    // 003's 3180E with the options jumpered, hard sectored.
    Hard,
    // The same, soft sectored.
    Soft,
    // The drive of document 01's worked values, write protected.
    Bare,
    // A removable one, write protected, whose motor starts at once.
    Removable,
    // The same, with the widest gaps: they fill 255 + 2 x 255 bytes of a sector.
    Wide,
}

#[derive(Clone, Copy)]
pub enum How {
    Fresh,
    Stopped,
    Starting,
    Lost,
    Busy,
    // The head timer runs.
    Switching,
    Reading,
    Writing,
    // A transfer is open.
    Open,
    // At cylinder 1,000, offset +1.
    Away,
    // 612 bytes a sector are in force.
    Set,
    // Every bit that may be latched is.
    Latched,
    // And a write fault stands.
    Standing,
}

// A drive, and how it is.
#[derive(Clone, Copy)]
pub struct Unit(pub Drive, pub How);

// 003, section 2: single track 3.5 ms, full stroke 35 ms at most, rezero 250 ms, start 20 s; 6.1.5: offset 2.5 ms.
const TIMES_3180: Times = Times {
    settle: Micros(3475),
    step: PerCylinder(25),
    switch: Micros(0),
    recalibrate: Micros(250_000),
    start: Micros(20_000_000),
    diagnostic: Micros(1_000_000),
    offset: Micros(2500),
};

const TIMES_WORKED: Times = Times {
    settle: Micros(3000),
    step: PerCylinder(20),
    switch: Micros(0),
    recalibrate: Micros(0),
    start: Micros(0),
    diagnostic: Micros(0),
    offset: Micros(0),
};

const HARD: Profile = Profile {
    slot: 1,
    vendor: 0x14,
    general: 0x226A,
    gap: 16,
    sync: 14,
    protected: 0,
    shape: Shape {
        cylinders: Cylinder(1250),
        heads: Heads(7),
        track: Position(20_832),
        sector: SectorSize(594),
    },
    times: TIMES_3180,
};

impl Drive {
    fn profile(self) -> Profile {
        let removable = Profile {
            general: 0x22AA,
            protected: 1,
            times: TIMES_WORKED,
            ..HARD
        };
        match self {
            Drive::Hard => HARD,
            Drive::Soft => Profile {
                general: 0x226C,
                shape: Shape {
                    sector: SectorSize(0),
                    ..HARD.shape
                },
                ..HARD
            },
            Drive::Bare => Profile {
                general: 0x024A,
                sync: 16,
                shape: Shape {
                    sector: SectorSize(512),
                    ..HARD.shape
                },
                ..removable
            },
            Drive::Removable => removable,
            Drive::Wide => Profile {
                gap: 255,
                sync: 255,
                ..removable
            },
        }
    }
}

// A transfer with one bit taken.
const ONE_BIT: Transfer = Transfer {
    waiting: Micros(0),
    bits: 1,
    response: 0,
    way: Transfer::TAKING,
    count: 1,
    acknowledge: 0,
};

impl How {
    // What a fresh drive's body becomes.
    fn body(self, fresh: Body) -> Body {
        let timers = fresh.timers;
        let arm = fresh.arm;
        let busy = Timers {
            busy: Micros(5),
            ..timers
        };
        match self {
            How::Fresh => fresh,
            How::Open => fresh,
            How::Stopped => Body {
                motor: Body::STOPPED,
                ..fresh
            },
            How::Starting => Body {
                timers: busy,
                motor: Body::STARTING,
                ..fresh
            },
            How::Lost => Body {
                arm: Arm { lost: 1, ..arm },
                ..fresh
            },
            How::Busy => Body {
                timers: busy,
                ..fresh
            },
            How::Switching => Body {
                timers: Timers {
                    head: Micros(5),
                    ..timers
                },
                ..fresh
            },
            How::Reading => Body {
                latched: Latched(0),
                reading: 1,
                ..fresh
            },
            How::Writing => Body {
                latched: Latched(0),
                writing: 1,
                ..fresh
            },
            How::Away => Body {
                arm: Arm {
                    cylinder: Cylinder(1000),
                    offset: 1,
                    ..arm
                },
                ..fresh
            },
            How::Set => Body {
                sector: SectorSize(612),
                ..fresh
            },
            How::Latched => Body {
                latched: Latched(0x1FB),
                ..fresh
            },
            How::Standing => Body {
                latched: Latched(0x1FB),
                standing: 1,
                ..fresh
            },
        }
    }

    fn transfer(self) -> Transfer {
        match self {
            How::Open => ONE_BIT,
            _ => Transfer::none(),
        }
    }
}

impl Unit {
    pub fn profile(self) -> Profile {
        self.0.profile()
    }

    pub fn state(self) -> State {
        let fresh = State::fresh(self.profile());
        State {
            body: self.1.body(fresh.body),
            transfer: self.1.transfer(),
        }
    }
}

impl fmt::Display for Drive {
    fn fmt<W: fmt::Write>(&self, f: &mut fmt::Formatter<W>) -> fmt::Result {
        f.write_str(match self {
            Drive::Hard => "hard",
            Drive::Soft => "soft",
            Drive::Bare => "bare",
            Drive::Removable => "removable",
            Drive::Wide => "wide",
        })
    }
}

impl fmt::Display for How {
    fn fmt<W: fmt::Write>(&self, f: &mut fmt::Formatter<W>) -> fmt::Result {
        f.write_str(match self {
            How::Fresh => "fresh",
            How::Stopped => "stopped",
            How::Starting => "starting",
            How::Lost => "lost",
            How::Busy => "busy",
            How::Switching => "switching",
            How::Reading => "reading",
            How::Writing => "writing",
            How::Open => "open",
            How::Away => "away",
            How::Set => "set",
            How::Latched => "latched",
            How::Standing => "standing",
        })
    }
}

impl fmt::Display for Unit {
    fn fmt<W: fmt::Write>(&self, f: &mut fmt::Formatter<W>) -> fmt::Result {
        write!(f, "{} {}", self.0, self.1)
    }
}
