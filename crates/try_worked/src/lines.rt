// One line a word: the drive, its state, the word and its parity: the response and its parity | the drive as it is left,
// that is its latched bits, cylinder, offset, lost, motor, busy, head timer, sector size, reading, writing, standing, and its transfer's way.
use crate::drives::Unit;
use drive_record::Body;
use std::{fmt, io};
use word_rules::responses::with_parity;

// Sixteen bits and their parity.
#[derive(Clone, Copy)]
struct Bits(u32);

// The response, if there is one.
#[derive(Clone, Copy)]
struct Response(Option<u32>);

#[derive(Clone, Copy)]
struct Left(Body);

impl fmt::Display for Bits {
    fn fmt<W: fmt::Write>(&self, f: &mut fmt::Formatter<W>) -> fmt::Result {
        write!(f, "{:04x} {}", self.0 / 2 % 65_536, self.0 % 2)
    }
}

impl fmt::Display for Response {
    fn fmt<W: fmt::Write>(&self, f: &mut fmt::Formatter<W>) -> fmt::Result {
        match self.0 {
            None => f.write_str("-"),
            Some(n) => write!(f, "{}", Bits(n)),
        }
    }
}

impl fmt::Display for Left {
    fn fmt<W: fmt::Write>(&self, f: &mut fmt::Formatter<W>) -> fmt::Result {
        let b = self.0;
        let arm = b.arm;
        write!(
            f,
            "{:04x} {} {} {} {}",
            b.latched.0, arm.cylinder.0, arm.offset, arm.lost, b.motor
        )?;
        write!(f, " {} {} {}", b.timers.busy.0, b.timers.head.0, b.sector.0)?;
        write!(f, " {} {} {}", b.reading, b.writing, b.standing)
    }
}

pub fn title(rt: &impl Print, text: &str) -> io::Result<()> {
    println!(rt; "# {text}")
}

// Seventeen bits by the plain word rules.
pub fn send_bits(rt: &impl Print, unit: Unit, n: u32) -> io::Result<()> {
    let a = word_rules::plain(unit.profile(), unit.state(), n);
    let s = a.state;
    println!(rt;
        "{unit} {}: {} | {} {}",
        Bits(n),
        Response(a.told),
        Left(s.body),
        s.transfer.way
    )
}

// Sixteen bits with the parity that they need.
pub fn send(rt: &impl Print, unit: Unit, w: u16) -> io::Result<()> {
    send_bits(rt, unit, with_parity(w))
}

// The same carried out at the end of a transfer, whatever the drive is doing.
pub fn carry_out(rt: &impl Print, unit: Unit, w: u16) -> io::Result<()> {
    let n = with_parity(w);
    let c = word_rules::carry(unit.profile(), unit.state().body, n);
    println!(rt;
        "{unit} {}: {} | {}",
        Bits(n),
        Response(c.told),
        Left(c.body)
    )
}
