// What a capture comes to: the events from one sample to the next, one at a time, and how many they are.
#![tactic(auto)]

pub mod count;

ghost use Rattle.std.specs.Prelude.{◌≡◌};
ghost use Rattle.capture_events.specs.Events.{gap_of};
ghost use Rattle.capture_events.specs.Coming.{Coming, start_of};

use capture_samples::{Sample, sample_of};
use lines::Lines;

// The most that one event lets pass.
const SPAN: u32 = 65_535;

// An event on the way to a sample, by its kind and its first operand (the second is 0), and what is reached by it.
// Stays: no plainer. An Event would be turned into its numbers again for chain_step::step and bus_reply::to_event.
#[derive(Clone, Copy)]
pub struct Ahead {
    pub kind: u32,
    pub a: u32,
    pub reached: Sample,
}

impl Ahead {
    fn new(kind: u32, a: u32, reached: Sample) -> Ahead
        ensures { result ≡ record { kind = kind; a = a; reached = reached } }
    {
        Ahead { kind, a, reached }
    }
}

// From the earlier stamp to the later, which may have run over.
#[tactic(auto, unfolding(crate::specs::Events::gap_of))]
fn gap(later: u32, earlier: u32) -> u32
    ensures { result ≡ gap_of later earlier }
{
    later.wrapping_sub(earlier)
}

// Two samples of one time: the first line whose level differs, in the order of their taking.
// Stays: no plainer. Each arm sets another field, and a table of the levels would need the six again to set the one that differs.
fn next_change(at: Sample, to: Sample) -> Option<Ahead>
    requires { at.stamp ≡ to.stamp }
    ensures { Coming at to result }
{
    let mut lines = at.lines;
    let new = to.lines;
    if lines.select != new.select {
        lines.select = new.select;
        return Some(Ahead::new(0, new.select as u32, Sample { lines, ..at }));
    }
    if lines.heads != new.heads {
        lines.heads = new.heads;
        return Some(Ahead::new(1, new.heads.0 as u32, Sample { lines, ..at }));
    }
    if lines.readgate != new.readgate {
        lines.readgate = new.readgate;
        return Some(Ahead::new(3, new.readgate as u32, Sample { lines, ..at }));
    }
    if lines.writegate != new.writegate {
        lines.writegate = new.writegate;
        return Some(Ahead::new(2, new.writegate as u32, Sample { lines, ..at }));
    }
    if lines.command != new.command {
        lines.command = new.command;
        return Some(Ahead::new(4, new.command as u32, Sample { lines, ..at }));
    }
    if lines.request != new.request {
        lines.request = new.request;
        return Some(Ahead::new(5, new.request as u32, Sample { lines, ..at }));
    }
    None
}

// The next event on the way from what is reached to a sample: time first, and then the lines.
pub fn next(at: Sample, to: Sample) -> Option<Ahead>
    ensures { Coming at to result }
{
    let left = gap(to.stamp, at.stamp);
    if left == 0 {
        return next_change(at, to);
    }
    let micros = left.min(SPAN);
    let stamp = at.stamp.wrapping_add(micros);
    Some(Ahead::new(6, micros, Sample { stamp, ..at }))
}

// What is reached before the first sample: the lines at the start, at the first sample's time.
pub fn start(lines: Lines, capture: &[u8]) -> Sample
    ensures { result ≡ start_of lines capture.now }
{
    Sample {
        lines,
        ..sample_of(capture)
    }
}
