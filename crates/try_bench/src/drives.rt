// The drives of each chain, slot by slot.
use counts::{Cylinder, Heads, Micros, PerCylinder, Position, SectorSize};
use pack_profile::{Profile, Shape, Times};

// The chains that are here.
#[derive(Clone, Copy)]
pub enum Drives {
    // five drives of different kinds; slots 3 and 6 are empty
    Mixed,
    // the smallest drive in each of the seven slots
    Full,
    // no drive
    Empty,
}

// Any other number is what the last is.
impl From<u8> for Drives {
    fn from(number: u8) -> Drives {
        match number {
            0 => Drives::Mixed,
            1 => Drives::Full,
            _ => Drives::Empty,
        }
    }
}

impl Drives {
    // The drive that is fitted in a slot.
    pub fn fitted(self, slot: u8) -> Option<Profile> {
        match self {
            Drives::Mixed => mixed(slot),
            Drives::Full => Some(bus_smallest::drive(slot)),
            Drives::Empty => None,
        }
    }
}

fn shape(cylinders: u16, heads: u16, track: u16, sector: u16) -> Shape {
    Shape {
        cylinders: Cylinder(cylinders),
        heads: Heads(heads),
        track: Position(track),
        sector: SectorSize(sector),
    }
}

// Fixed, hard sectored by the drive, the offset and the motor option, and a time for everything but its heads.
fn every_option() -> Profile {
    let times = Times {
        settle: Micros(100),
        step: PerCylinder(10),
        switch: Micros(0),
        recalibrate: Micros(400),
        start: Micros(2000),
        diagnostic: Micros(300),
        offset: Micros(50),
    };
    Profile {
        slot: 1,
        vendor: 0x14,
        general: 0x2262,
        gap: 16,
        sync: 14,
        protected: 0,
        shape: shape(5, 3, 4096, 512),
        times,
    }
}

// Removable, soft sectored, the motor option, slow heads; nothing else takes time.
fn slow_soft() -> Profile {
    let times = Times {
        switch: Micros(20),
        ..Profile::blank().times
    };
    Profile {
        slot: 2,
        vendor: 0x22,
        general: 0x02B4,
        gap: 7,
        sync: 9,
        protected: 0,
        shape: shape(2, 2, 4095, 0),
        times,
    }
}

// Fixed, protected, hard sectored by the controller, both options; its head switch takes 15 microseconds, the longest that starts no timer.
fn protected_fixed() -> Profile {
    let times = Times {
        switch: Micros(15),
        start: Micros(500),
        ..Profile::blank().times
    };
    Profile {
        slot: 4,
        vendor: 0x44,
        general: 0x2461,
        gap: 0,
        sync: 0,
        protected: 1,
        shape: shape(1, 2, 4095, 4095),
        times,
    }
}

// Removable, protected, no option, the longest recalibrate and diagnostic times.
fn protected_removable() -> Profile {
    let times = Times {
        recalibrate: Micros(30_000_000),
        diagnostic: Micros(30_000_000),
        ..Profile::blank().times
    };
    Profile {
        slot: 5,
        vendor: 0x55,
        general: 0x0182,
        gap: 255,
        sync: 255,
        protected: 1,
        shape: shape(2, 1, 4095, 162),
        times,
    }
}

// Fixed, no option, the slowest heads and the longest seek.
fn slowest_heads() -> Profile {
    let times = Times {
        settle: Micros(60_000),
        step: PerCylinder(1000),
        switch: Micros(60_000),
        ..Profile::blank().times
    };
    Profile {
        slot: 7,
        vendor: 0x77,
        general: 0x0252,
        gap: 1,
        sync: 2,
        protected: 0,
        shape: shape(2, 2, 4095, 600),
        times,
    }
}

fn mixed(slot: u8) -> Option<Profile> {
    match slot {
        1 => Some(every_option()),
        2 => Some(slow_soft()),
        4 => Some(protected_fixed()),
        5 => Some(protected_removable()),
        7 => Some(slowest_heads()),
        _ => None,
    }
}
