// The serial handshake: what a request edge and time do to a unit's transfer. It knows nothing else of the unit.
#![tactic(auto)]

ghost use Rattle.std.specs.Prelude.{◌≡◌};
ghost use Rattle.handshake.specs.Transfer.{no_transfer, responding_with, open_b, bit_out, status_line};
ghost use Rattle.handshake.specs.Edges.{taken_bit, next_bit, taken_of, put_out_of, rise_of, lowered_of, fall_of, late_b, wait_of};
ghost use Rattle.handshake.specs.SoundTransfer.{idle_b, none_b, taking_b, responding_b, left_b};

use counts::Micros;

// count: the bits taken, or put out. way: 0 none, 1 taking bits, 2 responding. acknowledge: the line's level.
// Stays: way and acknowledge are numbers, since C lends the record.
#[repr(C)]
#[derive(Clone, Copy, Default, PartialEq, Eq)]
pub struct Transfer {
    pub waiting: Micros,
    pub bits: u32,
    pub response: u32,
    pub count: u16,
    pub way: u8,
    pub acknowledge: u8,
}

// What a fall does: the transfer goes on, or its word is whole, to be carried out.
// Stays: a Result or an Either is no plainer, since neither is an error, and Left and Right say less than the two names.
#[derive(Clone, Copy)]
pub enum Fallen {
    Keep(Transfer),
    Carry(u32),
}

impl Transfer {
    pub const TAKING: u8 = 1;

    pub const RESPONDING: u8 = 2;

    // Sixteen bits and their parity.
    pub const BITS: u16 = 17;

    // The largest number of so many bits.
    pub const LARGEST: u32 = 131_071;

    // The longest time between one request edge and the next, in microseconds.
    pub const PATIENCE: u32 = 10_000;

    pub fn none() -> Transfer
        ensures { result ≡ no_transfer }
    {
        Transfer::default()
    }

    // A response, fixed, of which no bit is out yet.
    pub fn responding(response: u32) -> Transfer
        ensures { result ≡ responding_with response }
    {
        Transfer {
            response,
            way: Transfer::RESPONDING,
            ..Transfer::none()
        }
    }
}

pub fn is_open(t: Transfer) -> bool
    ensures { result ≡ open_b t }
{
    t.way != 0
}

// One more, up to seventeen.
fn counted(count: u16) -> u16
    ensures { result ≡ next_bit count }
{
    count.saturating_add(1).min(Transfer::BITS)
}

// The word so far with one bit more, a register of seventeen bits.
fn shifted(bits: u32, level: u8) -> u32
    ensures { result ≡ taken_bit bits level }
{
    bits % 65_536 * 2 + level as u32
}

fn taken(t: Transfer, level: u8) -> Transfer
    ensures { result ≡ taken_of level t }
{
    Transfer {
        bits: shifted(t.bits, level),
        way: Transfer::TAKING,
        count: counted(t.count),
        acknowledge: 1,
        ..Transfer::none()
    }
}

fn put_out(t: Transfer) -> Transfer
    ensures { result ≡ put_out_of t }
{
    Transfer {
        count: counted(t.count),
        acknowledge: 1,
        ..Transfer::responding(t.response)
    }
}

// Request rises: the transfer goes on, or none does, and it is dropped with bit 6. gated: either gate is on. calm: the unit's timers are 0. level: the command data line's.
#[tactic(auto, unfolding(crate::specs::Edges::rise_of))]
pub fn rise(t: Transfer, gated: bool, calm: bool, level: u8) -> Option<Transfer>
    ensures { result ≡ rise_of gated calm level t }
{
    if gated {
        return None;
    }
    if t.way == 0 {
        if !calm {
            return None;
        }
        return Some(taken(t, level));
    }
    if t.way == Transfer::RESPONDING {
        return Some(put_out(t));
    }
    Some(taken(t, level))
}

fn lowered(t: Transfer) -> Transfer
    ensures { result ≡ lowered_of t }
{
    Transfer {
        waiting: Micros(0),
        acknowledge: 0,
        ..t
    }
}

// Request falls.
#[tactic(auto, unfolding(crate::specs::Edges::fall_of))]
pub fn fall(t: Transfer) -> Fallen
    ensures { result ≡ fall_of t }
{
    if t.acknowledge != 1 {
        return Fallen::Keep(t);
    }
    if t.count < Transfer::BITS {
        return Fallen::Keep(lowered(t));
    }
    if t.way == Transfer::TAKING {
        return Fallen::Carry(t.bits);
    }
    Fallen::Keep(Transfer::none())
}

// Whether a transfer is open that these microseconds drop.
#[tactic(auto, unfolding(crate::specs::Edges::late_b))]
pub fn late(t: Transfer, us: Micros) -> bool
    ensures { result ≡ late_b us t }
{
    is_open(t) & (t.waiting.0 as u64 + us.0 as u64 > Transfer::PATIENCE as u64)
}

// Microseconds pass: the transfer goes on, or is dropped with bit 6.
#[tactic(auto, unfolding(crate::specs::Edges::wait_of))]
pub fn wait(t: Transfer, us: Micros) -> Option<Transfer>
    ensures { result ≡ wait_of us t }
{
    if late(t, us) {
        return None;
    }
    if !is_open(t) {
        return Some(t);
    }
    Some(Transfer {
        waiting: Micros(t.waiting.0 + us.0),
        ..t
    })
}

// The bit that is out when count bits of the response have been put out, the highest first.
#[tactic(auto, unfolding(crate::specs::Transfer::bit_out))]
fn bit_out(response: u32, count: u16) -> u8
    ensures { result ≡ bit_out response count }
{
    if count > Transfer::BITS {
        return 0;
    }
    ((response >> (Transfer::BITS - count) as u32) % 2) as u8
}

// The configuration/status line.
#[tactic(auto, unfolding(crate::specs::Transfer::status_line))]
pub fn status_line(t: Transfer) -> u8
    ensures { result ≡ status_line t }
{
    if t.way != Transfer::RESPONDING || t.acknowledge != 1 {
        return 0;
    }
    bit_out(t.response, t.count)
}

fn idle(t: Transfer) -> bool
    ensures { result ≡ idle_b t }
{
    t == Transfer {
        way: t.way,
        ..Transfer::none()
    }
}

// No transfer, and nothing of one left.
pub fn is_idle(t: Transfer) -> bool
    ensures { result ≡ none_b t }
{
    (t.way == 0) & idle(t)
}

#[tactic(auto, unfolding(crate::specs::SoundTransfer::taking_b))]
fn taking(t: Transfer, request: u8) -> bool
    ensures { result ≡ taking_b request t }
{
    if t.count > Transfer::BITS {
        return false;
    }
    (t.waiting.0 <= Transfer::PATIENCE)
        & (t.acknowledge == request)
        & (1 <= t.count)
        & (t.count <= 16 + request as u16)
        & (t.bits >> t.count as u32 == 0)
        & (t.response == 0)
}

fn responding(t: Transfer, request: u8) -> bool
    ensures { result ≡ responding_b request t }
{
    (t.waiting.0 <= Transfer::PATIENCE)
        & (t.acknowledge == request)
        & (request as u16 <= t.count)
        & (t.count <= 16 + request as u16)
        & (t.bits == 0)
        & (t.response <= Transfer::LARGEST)
}

// Whether the handshake could have left this transfer at that request level.
#[tactic(auto, unfolding(crate::specs::SoundTransfer::left_b))]
pub fn could_leave(t: Transfer, request: u8) -> bool
    ensures { result ≡ left_b request t }
{
    if t.way == 0 {
        return idle(t);
    }
    if t.way == Transfer::TAKING {
        return taking(t, request);
    }
    if t.way == Transfer::RESPONDING {
        return responding(t, request);
    }
    false
}
