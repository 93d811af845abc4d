// How many events a capture has, without running through them.
ghost use Rattle.std.specs.Prelude.{◌≡◌, ◌≤◌, length};
ghost use Rattle.capture_events.specs.Events.{passing_of, changes_of, events_to, capture_events};
ghost use Rattle.capture_events.specs.Count.{up_to};

use crate::SPAN;
use capture_samples::{LENGTH, Sample, sample_of};
use lines::Lines;

#[tactic(auto, using(crate::proofs::Passing::passes_whole, crate::proofs::Passing::passes_more))]
fn spans(gap: u32) -> u32
    ensures { result ≡ length (passing_of gap) }
{
    gap.div_ceil(SPAN)
}

#[tactic(auto, using(crate::proofs::Changing::changes_many))]
fn changes(old: Lines, new: Lines) -> u32
    ensures { result ≡ length (changes_of old new) }
{
    u32::from(old.select != new.select)
        + u32::from(old.heads != new.heads)
        + u32::from(old.readgate != new.readgate)
        + u32::from(old.writegate != new.writegate)
        + u32::from(old.command != new.command)
        + u32::from(old.request != new.request)
}

// From one sample to the next.
#[tactic(auto, using(crate::proofs::Counting::time_and_lines))]
fn between(at: Sample, to: Sample) -> u64
    ensures { result ≡ length (events_to at to) }
{
    let old = at.lines;
    let new = to.lines;
    spans(crate::gap(to.stamp, at.stamp)) as u64 + changes(old, new) as u64
}

// Of the whole capture, or the most that is asked for where there are more.
pub fn up_to(most: u64, lines: Lines, capture: &[u8]) -> u64
    ensures { result ≡ up_to most (length (capture_events lines capture.now)) }
{
    let (samples, _) = capture.as_chunks::<LENGTH>();
    let mut at = crate::start(lines, capture);
    let mut n = 0;
    for part in samples {
        let to = sample_of(part);
        let more = between(at, to);
        if more > most - n {
            return most;
        }
        n += more;
        at = to;
    }
    n
}
