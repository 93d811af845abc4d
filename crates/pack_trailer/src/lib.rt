// A pack's trailer: the profile of its drive, as 44 bytes and back.
#![tactic(auto)]

ghost use Rattle.std.specs.Prelude.{◌≡◌};
ghost use Rattle.counts.specs.Bytes.{one as byte_of, two as twoOf, four as fourOf};
ghost use Rattle.pack_trailer.specs.Fields.{ShapeIs, TimesIs, profile_of, zeros_b};
ghost use Rattle.pack_trailer.specs.TrailerBytes.{first_bytes, time_bytes, last_bytes, trailer_of};

use counts::read::{byte, four, two};
use counts::{Cylinder, Heads, Micros, PerCylinder, Position, SectorSize};
use pack_profile::{Profile, Shape, Times};

// The length of a trailer.
pub const LENGTH: usize = 44;

// The form that a trailer names.
pub const FORM: u8 = 1;

// Where in a trailer the form stands: the last of its fields.
pub const FORM_PLACE: usize = 39;

// Where in a trailer the distance begins, behind the fields.
pub const DISTANCE_PLACE: usize = 40;

// The form that a trailer names.
pub fn form_of(t: &[u8]) -> u8
    ensures { result ≡ byte_of t.now 39 }
{
    byte(t, FORM_PLACE)
}

// The bytes from the pack's end back to its start.
pub fn distance_of(t: &[u8]) -> u32
    ensures { result ≡ fourOf t.now 40 }
{
    four(t, DISTANCE_PLACE as u8)
}

// Whether the bytes that must be zero are.
pub fn zeros(t: &[u8]) -> bool
    ensures { result ≡ zeros_b t.now }
{
    (byte(t, 1) == 0) & (byte(t, 15) == 0) & (byte(t, 38) == 0)
}

fn shape_of(t: &[u8]) -> Shape
    ensures { ShapeIs t.now result }
{
    Shape {
        cylinders: Cylinder(two(t, 4)),
        heads: Heads(byte(t, 6) as u16),
        track: Position(two(t, 8)),
        sector: SectorSize(two(t, 10)),
    }
}

fn times_of(t: &[u8]) -> Times
    ensures { TimesIs t.now result }
{
    Times {
        settle: Micros(four(t, 16)),
        step: PerCylinder(two(t, 20) as u32),
        switch: Micros(two(t, 22) as u32),
        recalibrate: Micros(four(t, 24)),
        start: Micros(four(t, 28)),
        diagnostic: Micros(four(t, 32)),
        offset: Micros(two(t, 36) as u32),
    }
}

// The fields of a trailer.
#[tactic(auto, unfolding(crate::specs::Fields::profile_of))]
pub fn profile_of(t: &[u8]) -> Profile
    ensures { result ≡ profile_of t.now }
{
    let shape = shape_of(t);
    let times = times_of(t);
    Profile {
        slot: byte(t, 0),
        vendor: byte(t, 7),
        general: two(t, 2),
        gap: byte(t, 12),
        sync: byte(t, 13),
        protected: byte(t, 14) as u16,
        shape,
        times,
    }
}

// Places 0 to 15, high byte first.
fn first_bytes(p: Profile) -> [u8; 16]
    ensures { result ≡ first_bytes p }
{
    let mut bytes = [0u8; 16];
    bytes[0] = p.slot;
    bytes[2..4].copy_from_slice(&p.general.to_be_bytes());
    bytes[4..6].copy_from_slice(&p.shape.cylinders.0.to_be_bytes());
    bytes[6] = p.shape.heads.0.to_be_bytes()[1];
    bytes[7] = p.vendor;
    bytes[8..10].copy_from_slice(&p.shape.track.0.to_be_bytes());
    bytes[10..12].copy_from_slice(&p.shape.sector.0.to_be_bytes());
    bytes[12] = p.gap;
    bytes[13] = p.sync;
    bytes[14] = p.protected.to_be_bytes()[1];
    bytes
}

// Places 16 to 37: the times.
fn time_bytes(t: Times) -> [u8; 22]
    ensures { result ≡ time_bytes t }
{
    let mut bytes = [0u8; 22];
    bytes[..4].copy_from_slice(&t.settle.0.to_be_bytes());
    bytes[4..6].copy_from_slice(&t.step.0.to_be_bytes()[2..]);
    bytes[6..8].copy_from_slice(&t.switch.0.to_be_bytes()[2..]);
    bytes[8..12].copy_from_slice(&t.recalibrate.0.to_be_bytes());
    bytes[12..16].copy_from_slice(&t.start.0.to_be_bytes());
    bytes[16..20].copy_from_slice(&t.diagnostic.0.to_be_bytes());
    bytes[20..].copy_from_slice(&t.offset.0.to_be_bytes()[2..]);
    bytes
}

// Places 38 to 43: the form, and the distance to the pack's start.
fn last_bytes(distance: u32) -> [u8; 6]
    ensures { result ≡ last_bytes distance }
{
    let [a, b, c, d] = distance.to_be_bytes();
    [0, FORM, a, b, c, d]
}

// The 44 bytes of a trailer.
pub fn trailer(p: Profile, distance: u32) -> [u8; LENGTH]
    ensures { result ≡ trailer_of p distance }
{
    let first = first_bytes(p);
    let times = time_bytes(p.times);
    let last = last_bytes(distance);
    let mut t = [0u8; LENGTH];
    t[..16].copy_from_slice(&first);
    t[16..38].copy_from_slice(&times);
    t[38..].copy_from_slice(&last);
    t
}
