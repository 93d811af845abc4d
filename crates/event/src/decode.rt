// An event, decoded from its three numbers.
ghost use Rattle.std.specs.Prelude.{◌≡◌, ◌≤◌, ◌&&◌, Ok, Err, OnOk};
ghost use Rattle.std.specs.Prelude.{if◌then◌else◌};
ghost use Rattle.counts.specs.Slots.{slot_b};
ghost use Rattle.counts.specs.Tests.{within};
ghost use Rattle.event.specs.Operands.{is_select_code, is_head_lines, is_level, is_span, is_position, is_byte, is_condition, stray_b};
ghost use Rattle.event.specs.Decode.{ranged, kind_row, decode_of};

use crate::{Event, Undecoded};
use counts::{Head, LAST_SLOT, Micros, Position};
use lines::Lines;

// The highest select code, head lines, slot and condition.
const SELECT: u32 = Lines::LAST_SELECT as u32;

const HEADS: u32 = Lines::LAST_HEAD as u32;

const SLOT: u32 = LAST_SLOT as u32;

const CONDITION: u32 = 4;

// Kinds up to 6 have no second operand.
fn stray(kind: u32, b: u32) -> bool
    ensures { result ≡ stray_b kind b }
{
    (kind <= 6) & (b != 0)
}

// An operand in its range, both ends included.
fn within(operand: u32, least: u32, most: u32) -> Result<u32, Undecoded>
    ensures is { result ≡ (if within least most operand then Ok operand else Err Undecoded.Range) }
    ensures high { OnOk result (operand ≤ most) }
{
    if (operand < least) | (operand > most) {
        return Err(Undecoded::Range);
    }
    Ok(operand)
}

#[tactic(auto, unfolding(crate::specs::Decode::ranged))]
fn select(a: u32) -> Result<Event, Undecoded>
    ensures { result ≡ ranged (is_select_code a) (Event.Select a) }
{
    let slot = within(a, 0, SELECT)?;
    Ok(Event::Select(slot as u8))
}

#[tactic(auto, unfolding(crate::specs::Decode::ranged))]
fn heads(a: u32) -> Result<Event, Undecoded>
    ensures { result ≡ ranged (is_head_lines a) (Event.Heads (record { 0 = a })) }
{
    let lines = within(a, 0, HEADS)?;
    Ok(Event::Heads(Head(lines as u8)))
}

// The level of one of the four lines that have one.
fn level(a: u32) -> Result<u32, Undecoded>
    ensures is { result ≡ (if is_level a then Ok a else Err Undecoded.Range) }
    ensures high { OnOk result (a ≤ 1) }
{
    within(a, 0, 1)
}

#[tactic(auto, unfolding(crate::specs::Decode::ranged))]
fn pass(a: u32) -> Result<Event, Undecoded>
    ensures { result ≡ ranged (is_span a) (Event.Pass (record { 0 = a })) }
{
    let span = within(a, 0, 65_535)?;
    Ok(Event::Pass(Micros(span)))
}

#[tactic(auto, unfolding(crate::specs::Decode::ranged))]
fn cell(a: u32, b: u32) -> Result<Event, Undecoded>
    ensures { result ≡ ranged (is_position a && is_byte b) (Event.Cell (record { 0 = a }) b) }
{
    let position = within(a, 0, 65_535)?;
    let byte = within(b, 0, 255)?;
    Ok(Event::Cell(Position(position as u16), byte as u8))
}

#[tactic(auto, unfolding(crate::specs::Decode::ranged))]
fn condition(a: u32, b: u32) -> Result<Event, Undecoded>
    ensures { result ≡ ranged (slot_b a && is_condition b) (Event.Condition a b) }
{
    let slot = within(a, 1, SLOT)?;
    let which = within(b, 1, CONDITION)?;
    Ok(Event::Condition(slot as u8, which as u8))
}

// The event of a kind up to 8, where its operands are in range.
#[tactic(auto, unfolding(crate::specs::Decode::kind_row, crate::specs::Decode::ranged, crate::specs::Decode::level_line))]
fn row(kind: u32, a: u32, b: u32) -> Result<Event, Undecoded>
    ensures { result ≡ kind_row kind a b }
{
    match kind {
        0 => select(a),
        1 => heads(a),
        2 => Ok(Event::WriteGate(level(a)? as u16)),
        3 => Ok(Event::ReadGate(level(a)? as u16)),
        4 => Ok(Event::Data(level(a)? as u8)),
        5 => Ok(Event::Request(level(a)? as u8)),
        6 => pass(a),
        7 => cell(a, b),
        _ => condition(a, b),
    }
}

// An event from its three numbers.
// Stays: docs and edits name decode with its three numbers, and a TryFrom of a triple is no plainer.
#[tactic(auto, unfolding(crate::specs::Decode::decode_of))]
pub fn decode(kind: u32, a: u32, b: u32) -> Result<Event, Undecoded>
    ensures { result ≡ decode_of kind a b }
{
    if kind > 8 {
        return Err(Undecoded::Unknown);
    }
    if stray(kind, b) {
        return Err(Undecoded::Range);
    }
    row(kind, a, b)
}
