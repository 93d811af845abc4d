// Events and the answers to them.
#![tactic(auto)]

pub mod decode;
pub mod numbers;

use counts::{Head, Micros, Position};

// What happens on the cable, or in a slot.
#[derive(Clone, Copy)]
pub enum Event {
    // 0 selects none
    Select(u8),
    Heads(Head),
    // Stays: levels are numbers: decide promises its answer for each (decide_of), and an enum of two would leave the others out.
    WriteGate(u16),
    ReadGate(u16),
    Data(u8),
    Request(u8),
    Pass(Micros),
    Cell(Position, u8),
    // the slot, and what happens there: 1 a write fault begins, 2 seek error, 3 medium changed, 4 the write fault ends
    // Stays: condition_at of chain_others answers every number, and the theorems of law_chain/Standing speak of each.
    Condition(u8, u8),
}

// Why three numbers are no event.
#[derive(Clone, Copy)]
pub enum Undecoded {
    Unknown,
    Range,
}

#[derive(Clone, Copy)]
pub enum Answer {
    Taken,
    Read(u8),
    Written,
    Unselected,
    Inhibited,
    Fault,
    UnknownKind,
    OutOfRange,
    Malformed,
    WrongLength,
    Inapplicable,
    PastTrack,
}
