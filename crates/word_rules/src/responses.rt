// What a word is answered.
ghost use Rattle.std.specs.Prelude.{◌≡◌};
ghost use Rattle.word_table.specs.Word.{with_parity};
ghost use Rattle.word_rules.specs.Responses.{when as whenOf, configured_heads, sectors_of, configuration_of};

use counts::{Heads, SectorSize};
use pack_profile::Profile;

// Sixteen bits, and the parity that makes the ones among the seventeen odd.
#[tactic(auto, unfolding(word_table::specs::Word::with_parity))]
pub fn with_parity(word: u16) -> u32
    ensures { result ≡ with_parity word }
{
    let w = word as u32;
    w * 2 + (1 - w.count_ones() % 2)
}

fn when(test: bool, x: u16) -> u16
    ensures { result ≡ whenOf test x }
{
    u16::from(test) * x
}

// Removable heads in the high byte, fixed ones in the low.
fn heads(removable: bool, n: Heads) -> u16
    ensures { result ≡ configured_heads removable n }
{
    if removable {
        return n.0 % 256 * 256;
    }
    n.0 % 256
}

// Whole sectors of a size in a track; of size 0 none.
fn sectors(track: u16, size: u16) -> u16
    ensures { result ≡ sectors_of track size }
{
    track.checked_div(size).unwrap_or(0)
}

// Configuration by modifier, with the sector size now in force.
// Stays: an enum of ten modifiers would be named here alone, where the numbers are document 01's own.
#[tactic(auto, unfolding(crate::specs::Responses::configuration_of))]
pub(crate) fn configuration(p: Profile, sector: SectorSize, modifier: u8) -> u16
    ensures { result ≡ configuration_of p sector modifier }
{
    let n = p.shape.heads;
    let removable = pack_profile::general::removable(p.general);
    let size = when(!pack_profile::general::soft(p.general), sector.0);
    match modifier {
        0 => p.general,
        1 => when(!removable, p.shape.cylinders.0),
        2 => when(removable, p.shape.cylinders.0),
        3 => heads(removable, n),
        4 => p.shape.track.0,
        5 => size,
        6 => sectors(p.shape.track.0, size),
        7 => p.gap as u16,
        8 => p.sync as u16,
        15 => p.vendor as u16 * 256,
        _ => 0,
    }
}
