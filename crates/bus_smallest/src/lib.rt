// The smallest drive: the runner fits it where no pack file is named, and programs try things on it.
#![tactic(auto)]

ghost use Rattle.std.specs.Prelude.{◌≡◌};
ghost use Rattle.bus_smallest.specs.Smallest.{smallest_of};

use counts::{Cylinder, Heads, Position, SectorSize};
use pack_profile::{Profile, Shape};

// The length of its pack: the one track, and the trailer.
pub const PACK: usize = Shape::SHORTEST_TRACK as usize + pack_trailer::LENGTH;

// The smallest drive for a slot.
pub fn drive(slot: u8) -> Profile
    ensures { result ≡ smallest_of slot }
{
    let shape = Shape {
        cylinders: Cylinder(1),
        heads: Heads(1),
        track: Position(Shape::SHORTEST_TRACK),
        sector: SectorSize(512),
    };
    Profile {
        slot,
        general: 0x0242,
        shape,
        ..Profile::blank()
    }
}
