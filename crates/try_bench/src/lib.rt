// Chains to try things on: drives of several kinds, laid into a pack file and fitted; events and words played on their cable.
#![tactic(auto)]

pub mod drives;
pub mod plain;
pub mod play;
pub mod tally;

use chain_record::Chain;
use counts::{Head, LAST_SLOT, Micros, Position};
use drives::Drives;
use event::Event;
use pack_profile::Profile;

// Room for the longest chain's file, and more.
pub const ROOM: usize = 131_072;

// What each line adds to the sum.
pub const ACKNOWLEDGE: u8 = 4;

pub const STATUS: u8 = 8;

pub const ATTENTION: u8 = 16;

// What an event came to: its answer, the value, and then the lines as a sum.
#[derive(Clone, Copy, Default, PartialEq)]
pub struct Told {
    // Stays: no plainer: a script says answers by the numbers of the output line.
    pub answer: u8,
    pub value: u8,
    pub sum: u8,
}

// A chain, and how much of the room is lent to it as its file.
// Stays: tried with the room in it. As a vector it can't be copied and may not be had, and as an array each move is another room on the stack.
#[derive(Clone, Copy)]
pub struct Bench {
    pub chain: Chain,
    // Stays: no plainer: a script may lend more than the room has, so lent is no slice's length.
    pub lent: usize,
}

impl Bench {
    // No drive.
    pub fn new() -> Bench {
        Bench {
            chain: chain_fit::fit(&[]).chain,
            lent: 0,
        }
    }

    // One of the chains that are here, fresh, its file laid anew.
    pub fn fit(&mut self, room: &mut [u8; ROOM], drives: Drives) {
        self.lent = lay_all(room, drives);
        let end = self.lent.min(ROOM);
        self.chain = chain_fit::fit(&room[..end]).chain;
    }

    // An event by its three numbers.
    pub fn meet(&mut self, room: &mut [u8; ROOM], kind: u32, a: u32, b: u32) -> Told {
        let end = self.lent.min(ROOM);
        let reply = bus_reply::to_event(self.chain, &mut room[..end], kind, a, b);
        self.chain = reply.chain;
        // Stays: no plainer: as in bus_session, a struct of the three in Reply would be taken apart wherever they are named.
        Told {
            answer: reply.answer,
            value: reply.value,
            sum: reply.sum,
        }
    }

    pub fn happen(&mut self, room: &mut [u8; ROOM], event: Event) -> Told {
        let (kind, a, b) = numbers(event);
        self.meet(room, kind, a, b)
    }

    // The byte at a place of the room.
    pub fn byte(room: &[u8; ROOM], place: u32) -> Option<u8> {
        room.get(place as usize).copied()
    }
}

// An event's kind and its two operands.
pub fn numbers(event: Event) -> (u32, u32, u32) {
    match event {
        Event::Select(code) => (0, u32::from(code), 0),
        Event::Heads(Head(heads)) => (1, u32::from(heads), 0),
        Event::WriteGate(level) => (2, u32::from(level), 0),
        Event::ReadGate(level) => (3, u32::from(level), 0),
        Event::Data(level) => (4, u32::from(level), 0),
        Event::Request(level) => (5, u32::from(level), 0),
        Event::Pass(Micros(us)) => (6, us, 0),
        Event::Cell(Position(position), byte) => (7, u32::from(position), u32::from(byte)),
        Event::Condition(slot, which) => (8, u32::from(slot), u32::from(which)),
    }
}

// Lays a pack at a place, and gives the place behind it.
// Stays: no plainer: where the packs end is the answer itself, which a rest that shrinks would lose.
fn lay_behind(room: &mut [u8], at: usize, p: Profile) -> usize {
    if at > room.len() {
        return at;
    }
    let _ = pack_lay::lay(p, &mut room[at..]);
    at + pack_profile::medium(p.shape) + pack_trailer::LENGTH
}

// Lays the packs of a chain, slot after slot, and gives the file's length.
fn lay_all(room: &mut [u8], drives: Drives) -> usize {
    let mut at = 0;
    for slot in 1..=LAST_SLOT {
        if let Some(p) = drives.fitted(slot) {
            at = lay_behind(room, at, p);
        }
    }
    at
}
