// Which byte of the medium a cell meets.
ghost use Rattle.std.specs.Prelude.{◌≡◌, ◌<◌};
ghost use Rattle.drive_gates.specs.CellPlace.{Track, cell_in_track, InMedium};

use counts::{Cylinder, Head, Heads, Position};
use pack_profile::Profile;

fn track(cylinder: Cylinder, heads: Heads, head: Head) -> usize
    ensures { Track cylinder heads head result }
{
    cylinder.0 as usize * heads.0 as usize + head.0 as usize
}

fn cell(track: usize, bytes: u16, position: u16) -> usize
    requires { track < 4_294_967_296 }
    ensures { (result ≡ cell_in_track track bytes position) × (result < 281_474_976_710_656) }
{
    track * bytes as usize + position as usize
}

// The place in the medium of the cell at a position of the track under a head.
#[tactic(auto, unfolding(crate::specs::CellPlace::place_of))]
pub fn place(p: Profile, cylinder: Cylinder, head: Head, position: Position) -> usize
    ensures { InMedium p cylinder head position result }
{
    let heads = p.shape.heads;
    let n = track(cylinder, heads, head);
    cell(n, p.shape.track.0, position.0)
}
