// What becomes of a capture, judged before anything is done: 40 ahead of everything, then 37.
#![tactic(auto)]

ghost use Rattle.std.specs.Prelude.{◌≡◌};
ghost use Rattle.capture_judge.specs.Taking.{taking_of, taking_number, taking_value};

use lines::Lines;

// Why a capture isn't run.
#[derive(Clone, Copy)]
pub enum Untaken {
    // it is none: where the first bad sample stands
    NotCapture(u64),
    // too little room for the answers: so many events
    NoRoom(u64),
}

// A refusal's number, and 0 of a capture that is run.
// Stays: no plainer. A From<Result<..>> for u8 may stand in no crate but std's, and a type around either would be taken off at once.
pub fn taking_number(t: Result<u64, Untaken>) -> u8
    ensures { result ≡ taking_number t }
{
    match t {
        Ok(_) => 0,
        Err(Untaken::NotCapture(_)) => 40,
        Err(Untaken::NoRoom(_)) => 37,
    }
}

// How many events it has, or where it is bad.
// Stays: no plainer. A From<Result<..>> for u64 may stand in no crate but std's, and a type around either would be taken off at once.
pub fn taking_value(t: Result<u64, Untaken>) -> u64
    ensures { result ≡ taking_value t }
{
    match t {
        Ok(n) => n,
        Err(Untaken::NotCapture(place)) => place,
        Err(Untaken::NoRoom(n)) => n,
    }
}

// How many events a capture that is run has. The whole capture is looked at, and they are counted, before anything is done.
#[tactic(auto, unfolding(crate::specs::Taking::taking_of))]
pub fn judge(start: Lines, capture: &[u8], room: usize) -> Result<u64, Untaken>
    ensures { result ≡ taking_of start capture.now room }
{
    let good = capture_samples::good_bytes(capture);
    if good != capture.len() {
        return Err(Untaken::NotCapture(good as u64));
    }
    let n = capture_events::count::up_to(u64::MAX, start, capture);
    if n > room as u64 / 2 {
        return Err(Untaken::NoRoom(n));
    }
    Ok(n)
}
