// What is sent, group by group.
use crate::drives::Drive::{Bare, Hard, Removable, Soft, Wide};
use crate::drives::How::{
    Away, Busy, Fresh, Latched, Lost, Open, Reading, Set, Standing, Starting, Stopped, Switching,
    Writing,
};
use crate::drives::Unit;
use crate::lines::{carry_out, send, send_bits, title};
use std::io;

fn each(rt: &impl Print, unit: Unit, words: &[u16]) -> io::Result<()> {
    for &word in words {
        send(rt, unit, word)?;
    }
    Ok(())
}

// Configuration by each modifier.
fn configured(rt: &impl Print, unit: Unit) -> io::Result<()> {
    for modifier in 0..16 {
        send(rt, unit, 0x3000 + modifier * 0x100)?;
    }
    Ok(())
}

// Configuration by modifier, before and after command 9.
pub fn configurations(rt: &impl Print) -> io::Result<()> {
    title(rt, "configuration")?;
    configured(rt, Unit(Hard, Fresh))?;
    configured(rt, Unit(Hard, Set))?;
    configured(rt, Unit(Soft, Fresh))?;
    configured(rt, Unit(Removable, Fresh))
}

// Command 9 over its range.
pub fn sector_sizes(rt: &impl Print) -> io::Result<()> {
    title(rt, "sector sizes")?;
    each(
        rt,
        Unit(Hard, Fresh),
        &[0x9000, 0x90A1, 0x90A2, 0x9242, 0x9264, 0x9FFF],
    )?;
    send(rt, Unit(Hard, Stopped), 0x9264)?;
    send(rt, Unit(Hard, Lost), 0x9264)?;
    send(rt, Unit(Soft, Fresh), 0x90A2)
}

// Command 9 around what the gaps fill, 765 bytes; the pack's own 594 are quoted and can't be set.
pub fn gaps(rt: &impl Print) -> io::Result<()> {
    title(rt, "gaps")?;
    each(rt, Unit(Wide, Fresh), &[0x3500, 0x3600, 0x3700, 0x3800])?;
    each(
        rt,
        Unit(Wide, Fresh),
        &[0x90A1, 0x90A2, 0x91FF, 0x9252, 0x92FD, 0x92FE, 0x9FFF],
    )
}

// The sixteen codes, modifier 0, bits 7..0 zero.
pub fn codes(rt: &impl Print) -> io::Result<()> {
    title(rt, "codes")?;
    for code in 0..16 {
        send(rt, Unit(Hard, Away), code * 0x1000)?;
    }
    Ok(())
}

pub fn seeks(rt: &impl Print) -> io::Result<()> {
    title(rt, "seeks")?;
    each(
        rt,
        Unit(Hard, Fresh),
        &[0x0000, 0x0001, 0x04E1, 0x04E2, 0x0FFF],
    )?;
    each(rt, Unit(Hard, Away), &[0x03E8, 0x03E7, 0x04E1, 0x04E2])
}

// Each command's first invalid neighbours.
pub fn neighbours(rt: &impl Print) -> io::Result<()> {
    title(rt, "neighbours")?;
    each(
        rt,
        Unit(Hard, Fresh),
        &[
            0x1001, 0x1100, 0x2001, 0x2100, 0x3001, 0x3F80, 0x5001, 0x5100, 0x5201, 0x5301, 0x5400,
            0x7001, 0x7400, 0x7F00, 0x8001, 0x8100,
        ],
    )
}

// Options present and missing.
pub fn options(rt: &impl Print) -> io::Result<()> {
    title(rt, "options")?;
    send(rt, Unit(Hard, Fresh), 0x5200)?;
    send(rt, Unit(Hard, Fresh), 0x5300)?;
    each(rt, Unit(Hard, Away), &[0x7000, 0x7100, 0x7200, 0x7300])?;
    each(rt, Unit(Bare, Fresh), &[0x5000, 0x5200, 0x5300])?;
    each(rt, Unit(Bare, Away), &[0x7000, 0x7100, 0x7200, 0x7300])?;
    send(rt, Unit(Bare, Fresh), 0x90A2)?;
    send(rt, Unit(Soft, Fresh), 0x5200)?;
    send(rt, Unit(Soft, Fresh), 0x7200)
}

pub fn responses(rt: &impl Print) -> io::Result<()> {
    title(rt, "status")?;
    send(rt, Unit(Hard, Fresh), 0x2000)?;
    send(rt, Unit(Hard, Latched), 0x2000)?;
    send(rt, Unit(Hard, Stopped), 0x2000)?;
    send(rt, Unit(Hard, Lost), 0x2000)?;
    send(rt, Unit(Bare, Fresh), 0x2000)?;
    send(rt, Unit(Bare, Stopped), 0x2000)?;
    send(rt, Unit(Removable, Latched), 0x2000)
}

// Even parity, invalid, not ready, lost: the first decides.
pub fn order(rt: &impl Print) -> io::Result<()> {
    title(rt, "order")?;
    send_bits(rt, Unit(Hard, Fresh), 0x2000 * 2 + 1)?;
    send_bits(rt, Unit(Hard, Stopped), 0x04E2 * 2 + 1)?;
    send(rt, Unit(Hard, Stopped), 0x04E2)?;
    send(rt, Unit(Hard, Stopped), 0x04E1)?;
    send(rt, Unit(Hard, Lost), 0x04E2)?;
    send(rt, Unit(Hard, Lost), 0x04E1)?;
    send_bits(rt, Unit(Hard, Latched), 0x04E1 * 2 + 1)?;
    send_bits(rt, Unit(Hard, Fresh), 131_072 + 0x2000 * 2)
}

pub fn stopped(rt: &impl Print) -> io::Result<()> {
    title(rt, "not ready")?;
    each(
        rt,
        Unit(Hard, Stopped),
        &[
            0x0000, 0x1000, 0x7000, 0x7200, 0x3000, 0x5000, 0x5200, 0x5300, 0x8000,
        ],
    )?;
    send(rt, Unit(Removable, Stopped), 0x5300)
}

// A starting motor, the word carried out.
pub fn starting(rt: &impl Print) -> io::Result<()> {
    title(rt, "starting")?;
    carry_out(rt, Unit(Hard, Starting), 0x0000)?;
    carry_out(rt, Unit(Hard, Starting), 0x1000)?;
    carry_out(rt, Unit(Hard, Starting), 0x2000)?;
    carry_out(rt, Unit(Hard, Starting), 0x5200)?;
    carry_out(rt, Unit(Hard, Starting), 0x5300)?;
    carry_out(rt, Unit(Hard, Starting), 0x8000)?;
    carry_out(rt, Unit(Bare, Starting), 0x8000)
}

pub fn lost(rt: &impl Print) -> io::Result<()> {
    title(rt, "lost")?;
    each(
        rt,
        Unit(Hard, Lost),
        &[0x0000, 0x1000, 0x7000, 0x7300, 0x5200, 0x5300, 0x8000],
    )
}

// Command complete false, or a drive that reads or writes.
pub fn incomplete(rt: &impl Print) -> io::Result<()> {
    title(rt, "incomplete")?;
    send(rt, Unit(Hard, Starting), 0x2000)?;
    send(rt, Unit(Hard, Busy), 0x2000)?;
    send(rt, Unit(Hard, Busy), 0x04E2)?;
    send_bits(rt, Unit(Hard, Busy), 0x2000 * 2 + 1)?;
    send(rt, Unit(Hard, Switching), 0x3000)?;
    send(rt, Unit(Hard, Reading), 0x2000)?;
    send(rt, Unit(Hard, Writing), 0x2000)?;
    send(rt, Unit(Hard, Open), 0x2000)
}

pub fn clearing(rt: &impl Print) -> io::Result<()> {
    title(rt, "control 0")?;
    send(rt, Unit(Hard, Fresh), 0x5000)?;
    send(rt, Unit(Hard, Latched), 0x5000)?;
    send(rt, Unit(Hard, Lost), 0x5000)
}

// Control 0 leaves bit 1; other words know nothing of the fault.
pub fn standing(rt: &impl Print) -> io::Result<()> {
    title(rt, "a write fault stands")?;
    each(
        rt,
        Unit(Hard, Standing),
        &[0x5000, 0x2000, 0x5200, 0x5300, 0x1000, 0xF000],
    )?;
    send(rt, Unit(Removable, Standing), 0x5000)
}
