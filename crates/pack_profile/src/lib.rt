// A drive's profile: what its pack says of it, whatever it is doing.
#![tactic(auto)]

pub mod general;
pub mod valid;

ghost use Rattle.std.specs.Prelude.{◌≡◌, ◌*◌, ◌<◌};
ghost use Rattle.pack_profile.specs.Profile.{blank_profile, Medium};

use counts::{Cylinder, Heads, Micros, PerCylinder, Position, SectorSize};

#[repr(C)]
#[derive(Clone, Copy, Default)]
pub struct Shape {
    pub cylinders: Cylinder,
    pub heads: Heads,
    pub track: Position,
    pub sector: SectorSize,
}

#[repr(C)]
#[derive(Clone, Copy, Default)]
pub struct Times {
    pub settle: Micros,
    pub step: PerCylinder,
    pub switch: Micros,
    pub recalibrate: Micros,
    pub start: Micros,
    pub diagnostic: Micros,
    pub offset: Micros,
}

// protected, 0 or 1, has two bytes so that no byte is padding.
// Stays: the C interface, where protected is a number.
#[repr(C)]
#[derive(Clone, Copy, Default)]
pub struct Profile {
    pub slot: u8,
    pub vendor: u8,
    pub general: u16,
    pub gap: u8,
    pub sync: u8,
    pub protected: u16,
    pub shape: Shape,
    pub times: Times,
}

impl Shape {
    pub const MOST_CYLINDERS: u16 = 4096;

    pub const MOST_HEADS: u16 = 16;

    pub const SHORTEST_TRACK: u16 = 4095;

    pub const LONGEST_TRACK: u16 = 40_960;

    // The sector sizes of a hard sectored drive.
    pub const SMALLEST_SECTOR: u16 = 162;

    pub const LARGEST_SECTOR: u16 = 4095;
}

impl Times {
    // The most that settling, a head switch and an offset take.
    pub const SHORT: u32 = 60_000;

    // The most that recalibrating, starting and diagnostics take, and so the longest busy time.
    pub const LONG: u32 = 30_000_000;

    pub const LARGEST_STEP: u32 = 1000;

    // A head switch that takes no longer is not waited for.
    pub const AT_ONCE: u32 = 15;
}

impl Profile {
    // What stands where no drive is: all zeros.
    pub fn blank() -> Profile
        ensures { result ≡ blank_profile }
    {
        Profile::default()
    }
}

fn product(cylinders: u16, heads: u16, track: u16) -> usize
    ensures { (result ≡ cylinders * heads * track) × (result < 281_474_976_710_656) }
{
    cylinders as usize * heads as usize * track as usize
}

// The bytes of a pack's medium.
pub fn medium(s: Shape) -> usize
    ensures { Medium s result }
{
    product(s.cylinders.0, s.heads.0, s.track.0)
}
