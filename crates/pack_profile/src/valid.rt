// Which fields may stand.
ghost use Rattle.std.specs.Prelude.{◌≡◌};
ghost use Rattle.pack_profile.specs.Valid.{hard_size, sector_ok, valid_b};

use crate::{Profile, Shape, Times, general};
use counts::LAST_SLOT;

// The sector sizes of a hard sectored drive.
pub fn hard_size(size: u16) -> bool
    ensures { result ≡ hard_size size }
{
    (Shape::SMALLEST_SECTOR <= size) & (size <= Shape::LARGEST_SECTOR)
}

// Whether a sector size may stand.
pub fn sector_ok(soft: bool, size: u16) -> bool
    ensures { result ≡ sector_ok soft size }
{
    if soft {
        return size == 0;
    }
    hard_size(size)
}

// Whether every field is one that may stand.
#[tactic(auto, unfolding(crate::specs::Valid::valid_b))]
pub fn valid(p: Profile) -> bool
    ensures { result ≡ valid_b p }
{
    ((1 <= p.slot) & (p.slot <= LAST_SLOT))
        & general::general_ok(p.general, p.times.switch.0)
        & ((1 <= p.shape.cylinders.0) & (p.shape.cylinders.0 <= Shape::MOST_CYLINDERS))
        & ((1 <= p.shape.heads.0) & (p.shape.heads.0 <= Shape::MOST_HEADS))
        & ((Shape::SHORTEST_TRACK <= p.shape.track.0) & (p.shape.track.0 <= Shape::LONGEST_TRACK))
        & sector_ok(general::soft(p.general), p.shape.sector.0)
        & (p.protected <= 1)
        & (p.times.settle.0 <= Times::SHORT)
        & (p.times.step.0 <= Times::LARGEST_STEP)
        & (p.times.switch.0 <= Times::SHORT)
        & (p.times.recalibrate.0 <= Times::LONG)
        & (p.times.start.0 <= Times::LONG)
        & (p.times.diagnostic.0 <= Times::LONG)
        & (p.times.offset.0 <= Times::SHORT)
}
