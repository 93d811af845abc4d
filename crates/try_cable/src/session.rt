// Plays a script line, and reports whether what came is what it says.
//
//     # title     a session starts: whatever was before is forgotten
//     -- text     a remark; so is what stands behind a line's last number
//
// Every other line is a step.
use crate::step;
use crate::step::{Named, Step};
use chain_decide::shown;
use std::io;
use try_bench::drives::Drives;
use try_bench::play::Play;
use try_bench::{Bench, ROOM, Told, plain};
use try_script::{fields, words};

// Stays: on every input the program does what it did, and a script may say this of a field or a byte that isn't there.
const NOWHERE: u32 = u32::MAX;

// here: the differences of this session.
#[derive(Clone, Copy)]
pub struct Run {
    play: Play,
    here: u32,
    differences: u32,
    sessions: u32,
    lines: u32,
}

// Reports a line that isn't as it says.
fn amiss(rt: &impl Print, line: &[u8], why: &str) -> io::Result<bool> {
    print!(rt; "\n  ")?;
    rt.write_all(line)?;
    print!(rt; "\n  {why}")?;
    Ok(false)
}

fn unread(rt: &impl Print, line: &[u8]) -> io::Result<bool> {
    amiss(rt, line, "can't be read")
}

fn says(line: &[u8], k: usize, value: u8) -> bool {
    words::number(line, k) == Some(u32::from(value))
}

fn says_told(line: &[u8], told: Told) -> bool {
    (words::word(line, 3) == "=")
        & says(line, 4, told.answer)
        & says(line, 5, told.value)
        & says(line, 6, told.sum)
}

// The three numbers behind = are what the last event came to, and what was before it is good.
fn judged(rt: &impl Print, line: &[u8], told: Told, good: bool) -> io::Result<bool> {
    if !good {
        return amiss(rt, line, "not so within the word");
    }
    if says_told(line, told) {
        return Ok(true);
    }
    let Told { answer, value, sum } = told;
    amiss(rt, line, "came")?;
    print!(rt; " {answer} {value} {sum}")?;
    Ok(false)
}

// The response and the lines are what the three numbers behind = say.
fn answers(line: &[u8], response: Option<u32>, sum: u8) -> bool {
    (words::word(line, 3) == "=")
        & (step::word_at(line, 4) == Some(response.unwrap_or(0)))
        & says(line, 6, sum)
}

fn plainly(rt: &impl Print, play: &mut Play, line: &[u8], word: u32) -> io::Result<bool> {
    let a = plain::plain(play.bench.chain, word);
    play.bench.chain = a.chain;
    if answers(line, a.response, shown::line_sum(a.chain)) {
        return Ok(true);
    }
    amiss(rt, line, "not so by the plain word rules")
}

fn set(rt: &impl Print, play: &mut Play, line: &[u8], to: Named, v: u32) -> io::Result<bool> {
    let chain = &mut play.bench.chain;
    fields::set_field(chain, to.slot, to.name, v);
    if fields::field(chain, to.slot, to.name).unwrap_or(NOWHERE) == v {
        return Ok(true);
    }
    unread(rt, line)
}

fn compared(rt: &impl Print, line: &[u8], held: Option<u32>, v: u32) -> io::Result<bool> {
    let held = held.unwrap_or(NOWHERE);
    if held == v {
        return Ok(true);
    }
    amiss(rt, line, "holds")?;
    print!(rt; " {held}")?;
    Ok(false)
}

// Plays a step. Whether it went as the line says.
fn played(
    rt: &impl Print,
    play: &mut Play,
    room: &mut [u8; ROOM],
    line: &[u8],
) -> io::Result<bool> {
    let Some(step) = step::read(line) else {
        return unread(rt, line);
    };
    let mut good = true;
    match step {
        Step::Event(kind, a, b) => play.event(room, kind, a, b),
        Step::Send(word, count) => good = play.send(room, word, count),
        Step::Take(word) => good = play.take(room, word),
        Step::Plain(word) => return plainly(rt, play, line, word),
        Step::Set(to, v) => return set(rt, play, line, to, v),
        Step::Is(at, v) => {
            let held = fields::field(&play.bench.chain, at.slot, at.name);
            return compared(rt, line, held, v);
        }
        Step::At(place, v) => {
            let held = Bench::byte(room, place).map(u32::from);
            return compared(rt, line, held, v);
        }
        Step::Lend(lent) => {
            play.bench.lent = lent;
            return Ok(true);
        }
        Step::Fit(drives) => {
            play.bench.fit(room, drives);
            return Ok(true);
        }
    }
    judged(rt, line, play.told, good)
}

impl Run {
    // No session yet, and no drive.
    pub fn new() -> Run {
        Run {
            play: Play::new(),
            here: 0,
            differences: 0,
            sessions: 0,
            lines: 0,
        }
    }

    pub fn line(&mut self, rt: &impl Print, room: &mut [u8; ROOM], line: &[u8]) -> io::Result<()> {
        match line.first() {
            None | Some(b'-') => Ok(()),
            Some(b'#') => self.titled(rt, room, line),
            Some(_) => self.counted(rt, room, line),
        }
    }

    // A session has no chain until the script fits one.
    fn titled(&mut self, rt: &impl Print, room: &mut [u8; ROOM], line: &[u8]) -> io::Result<()> {
        self.close(rt)?;
        rt.write_all(line)?;
        self.play.bench.fit(room, Drives::Empty);
        self.here = 0;
        self.sessions = self.sessions.wrapping_add(1);
        Ok(())
    }

    // Ends a session's line of the report.
    fn close(&self, rt: &impl Print) -> io::Result<()> {
        if self.sessions == 0 {
            return Ok(());
        }
        if self.here == 0 {
            return println!(rt; ": ok");
        }
        println!(rt; "\n  NOT ok")
    }

    // A line that plays something.
    fn counted(&mut self, rt: &impl Print, room: &mut [u8; ROOM], line: &[u8]) -> io::Result<()> {
        let different = u32::from(!played(rt, &mut self.play, room, line)?);
        self.here = self.here.wrapping_add(different);
        self.differences = self.differences.wrapping_add(different);
        self.lines = self.lines.wrapping_add(1);
        Ok(())
    }

    // The totals.
    pub fn end(&self, rt: &impl Print) -> io::Result<()> {
        self.close(rt)?;
        let Run {
            sessions,
            lines,
            ..
        } = self;
        println!(rt; "sessions {sessions}")?;
        println!(rt; "lines {lines}")?;
        let tally = self.play.tally;
        let differences = self.differences;
        print!(rt; "{tally}")?;
        println!(rt; "differences {differences}")
    }
}
