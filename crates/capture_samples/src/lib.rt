// A logic analyser's capture: samples of six bytes, each a stamp and the levels of the lines.
#![tactic(auto)]

ghost use Rattle.std.specs.Prelude.{◌≡◌};
ghost use Rattle.capture_samples.specs.Samples.{lines_of, levels_b, sample_of, good_bytes};

use counts::Head;
use counts::read::{four, two};
use lines::Lines;

// The length of a sample.
pub const LENGTH: usize = 6;

// When, in microseconds that run over, and the levels then.
#[derive(Clone, Copy)]
pub struct Sample {
    pub stamp: u32,
    pub lines: Lines,
}

// The levels of the lines, by their bits.
#[tactic(auto, unfolding(crate::specs::Samples::lines_of))]
fn lines_of(levels: u16) -> Lines
    ensures { result ≡ lines_of levels }
{
    Lines {
        select: (levels % 8) as u8,
        heads: Head((levels / 8 % 16) as u8),
        readgate: levels / 128 % 2,
        writegate: levels / 256 % 2,
        command: (levels / 512 % 2) as u8,
        request: (levels / 1_024 % 2) as u8,
    }
}

// The sample at the start of the lent part.
// Stays: no plainer. sample_of promises its answer for a part of any length (docs/STATEMENTS.md), and From<[u8; 6]> would ask for six bytes.
pub fn sample_of(part: &[u8]) -> Sample
    ensures { result ≡ sample_of part.now }
{
    let lines = lines_of(two(part, 4));
    Sample {
        stamp: four(part, 0),
        lines,
    }
}

// Whether no bit stands above the lines'.
fn good(part: &[u8]) -> bool
    ensures { result ≡ levels_b part.now }
{
    two(part, 4) < 2_048
}

// How many bytes stand in front of the first bad sample, all where none is bad.
pub fn good_bytes(capture: &[u8]) -> usize
    ensures { result ≡ good_bytes capture.now }
{
    let (samples, _) = capture.as_chunks::<LENGTH>();
    samples.iter().take_while(|part| good(*part)).count() * LENGTH
}
