// A word sent both ways: by its bits with waits between the edges, and handed to the plain word rules when the same waits have passed.
use crate::random::Waits;
use chain_record::{Chain, slots};
use counts::Micros;
use drive_record::{State, status};
use event::Event;
use handshake::Transfer;
use try_bench::plain::Answered;
use try_bench::{ACKNOWLEDGE, Bench, ROOM, STATUS, Told, plain};

// What came of a word: the response that the drive put out, and what the cable answered at the word's end.
#[derive(Clone, Copy)]
pub struct Sent {
    pub response: Option<u32>,
    pub answer: u8,
}

// Bits that the drive put out, and what the last fall was answered.
#[derive(Clone, Copy)]
struct Pulsed {
    bits: u32,
    answer: u8,
}

pub fn selected(c: &Chain) -> State {
    slots::state_in(c.states, c.lines.select)
}

fn pass(bench: &mut Bench, room: &mut [u8; ROOM], us: Micros) {
    if us.0 != 0 {
        bench.happen(room, Event::Pass(us));
    }
}

// The next wait.
fn wait(bench: &mut Bench, room: &mut [u8; ROOM], waits: &mut Waits) {
    let w = waits.draw();
    pass(bench, room, w.first);
    pass(bench, room, w.second);
}

// A level put on the data line, and request's rise.
fn rise(bench: &mut Bench, room: &mut [u8; ROOM], level: u8) -> Told {
    bench.happen(room, Event::Data(level));
    bench.happen(room, Event::Request(1))
}

// Request's fall: what it is answered.
fn fall(bench: &mut Bench, room: &mut [u8; ROOM]) -> u8 {
    bench.happen(room, Event::Request(0)).answer
}

// Some pulses, with a word's bits behind its first on the data line; a wait before each rise, and one before each fall.
fn pulses(
    bench: &mut Bench,
    room: &mut [u8; ROOM],
    waits: &mut Waits,
    word: u32,
    count: u32,
) -> Pulsed {
    let mut sent = Pulsed { bits: 0, answer: 0 };
    let mut left = word;
    for _ in 0..count {
        left = left % 65_536 * 2;
        wait(bench, room, waits);
        let up = rise(bench, room, (left / 65_536 % 2) as u8);
        wait(bench, room, waits);
        let bit = u32::from(up.sum / STATUS % 2);
        sent.bits = sent.bits % 65_536 * 2 + bit;
        sent.answer = fall(bench, room);
    }
    sent
}

// The response, where one is open after the seventeenth fall.
fn fetched(bench: &mut Bench, room: &mut [u8; ROOM], waits: &mut Waits) -> Option<u32> {
    if selected(&bench.chain).transfer.way != Transfer::RESPONDING {
        return None;
    }
    Some(pulses(bench, room, waits, 0, 17).bits)
}

// From the first bit's rise on; the seventeenth fall's answer counts.
fn acknowledged(bench: &mut Bench, room: &mut [u8; ROOM], word: u32, seed: u64) -> Sent {
    let mut waits = Waits::new(seed);
    wait(bench, room, &mut waits);
    fall(bench, room);
    let answer = pulses(bench, room, &mut waits, word, 16).answer;
    let response = fetched(bench, room, &mut waits);
    Sent { response, answer }
}

// Stays: no plainer: a trial calls by_bits and at_once once each, so a struct of bench, word and seed would be for one call.
pub fn by_bits(bench: &mut Bench, room: &mut [u8; ROOM], word: u32, seed: u64) -> Sent {
    let up = rise(bench, room, (word / 65_536 % 2) as u8);
    if up.sum / ACKNOWLEDGE % 2 == 1 {
        return acknowledged(bench, room, word, seed);
    }
    // Where acknowledge doesn't rise, the host lowers request at once and ends; the rise's answer counts.
    fall(bench, room);
    Sent {
        response: None,
        answer: up.answer,
    }
}

// How many waits a word has: between its 34 edges, and the response's where there is one.
fn waits_of(c: Chain, word: u32) -> u32 {
    if !status::complete(selected(&c)) {
        return 0;
    }
    match plain::plain(c, word).response {
        None => 33,
        Some(_) => 67,
    }
}

// At once, when the waits have passed.
pub fn at_once(bench: &mut Bench, room: &mut [u8; ROOM], word: u32, seed: u64) -> Answered {
    let mut waits = Waits::new(seed);
    for _ in 0..waits_of(bench.chain, word) {
        wait(bench, room, &mut waits);
    }
    plain::plain(bench.chain, word)
}
