// Plays the cable sessions of the script on standard input, whose every line says what must come, worked out from document 01.
// A session's title is printed with ok behind it, or with the lines that came otherwise; the totals follow.
#![tactic(auto)]

mod session;
mod step;

use session::Run;
use std::io;
use try_bench::ROOM;

// The longest script; of a longer one the end is missing, and the totals show it.
const SCRIPT: u64 = 131_072;

fn main(rt: HostRuntime) -> io::Result<()> {
    let script = try_script::script(&rt, SCRIPT)?;
    let mut room = [0u8; ROOM];
    let mut run = Run::new();
    for line in script.split(|byte| *byte == b'\n') {
        run.line(&rt, &mut room, line)?;
    }
    run.end(&rt)
}
