// Words sent to drives, and what came: one line each, held to crates/try_worked/stdout, which is worked out from the papers.
#![tactic(auto)]

mod cases;
mod drives;
mod lines;

use std::io;

fn main(rt: HostRuntime) -> io::Result<()> {
    cases::configurations(&rt)?;
    cases::sector_sizes(&rt)?;
    cases::gaps(&rt)?;
    cases::codes(&rt)?;
    cases::seeks(&rt)?;
    cases::neighbours(&rt)?;
    cases::options(&rt)?;
    cases::responses(&rt)?;
    cases::order(&rt)?;
    cases::stopped(&rt)?;
    cases::starting(&rt)?;
    cases::lost(&rt)?;
    cases::incomplete(&rt)?;
    cases::clearing(&rt)?;
    cases::standing(&rt)
}
