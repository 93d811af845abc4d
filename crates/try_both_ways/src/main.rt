// Sends words both ways to drives of several kinds, and counts what came and every difference: document 01's "the plain word rules
// are these", held against the handshake bit by bit. One line of totals.
#![tactic(auto)]

mod random;
mod totals;
mod ways;

use chain_record::Chain;
use counts::{Head, Micros};
use drive_record::{Body, Latched, State};
use event::Event;
use lines::Lines;
use random::{Random, below};
use std::{io, mem};
use totals::Totals;
use try_bench::drives::Drives;
use try_bench::plain::Answered;
use try_bench::{Bench, ROOM, plain};
use ways::Sent;

const WORDS: u32 = 3000;

#[derive(Clone, Copy)]
struct Run {
    bench: Bench,
    random: Random,
    totals: Totals,
}

// As long as the longest time that a drive may be busy.
fn long_wait(bench: &mut Bench, room: &mut [u8; ROOM]) {
    for _ in 0..460 {
        bench.happen(room, Event::Pass(Micros(65_535)));
    }
}

// What happens between words: a condition comes, the head lines move, or time passes, maybe none.
fn some_event(r: u64) -> Event {
    let more = r / 16;
    match r % 16 {
        0 => Event::Condition(below(more, 7) as u8 + 1, below(more / 16, 4) as u8 + 1),
        1 => Event::Heads(Head(below(more, 4) as u8)),
        2 => Event::Pass(Micros(below(more, 500) as u32)),
        3 => Event::Pass(Micros(10_000)),
        4..=8 => Event::Pass(Micros(65_535)),
        _ => Event::Pass(Micros(0)),
    }
}

// One time in sixteen, a wait that ends whatever a drive is busy with.
fn between(bench: &mut Bench, room: &mut [u8; ROOM], r: u64) {
    if r % 16 == 9 {
        long_wait(bench, room);
        return;
    }
    bench.happen(room, some_event(r));
}

// Words of every code: those that do something more often than not, and any at all.
fn some_word(r: u64) -> u16 {
    let low = below(r / 32, 4096) as u16;
    match r % 16 {
        0 | 1 => low % 6,
        2 => 0x1000,
        3 => 0x2000,
        4 => 0x3000 + low % 16 * 256,
        5 => 0x5000,
        6 => 0x5200,
        7 | 8 => 0x5300,
        9 => 0x7000 + low % 5 * 256,
        10 => 0x8000,
        11 => 0x9000 + low,
        12 => low % 16 * 4096,
        13 => low % 16 * 4096 + low / 16,
        _ => below(r / 16, 65_536) as u16,
    }
}

// Sixteen bits with the parity that they need, and one time in twelve with the other.
fn seventeen(word: u16, r: u64) -> u32 {
    let bits = word_rules::responses::with_parity(word);
    if r % 12 != 0 {
        return bits;
    }
    bits ^ 1
}

fn unlatched(s: State) -> State {
    let body = Body {
        latched: Latched(0),
        ..s.body
    };
    State { body, ..s }
}

// The bit that a word latches on the selected drive, 0 where it is carried out.
fn latches(c: Chain, word: u32) -> u16 {
    let s = unlatched(ways::selected(&c));
    let after = plain::plain(plain::with_selected(c, s), word);
    ways::selected(&after.chain).body.latched.0
}

// The lines but for the command data line's level.
fn but_data(l: Lines) -> Lines {
    Lines { command: 0, ..l }
}

// The same record but for the command data line's level, the same response and the same answer.
fn agree(left: Chain, slow: Sent, quick: Answered) -> bool {
    (but_data(left.lines) == but_data(quick.chain.lines))
        & (left.states == quick.chain.states)
        & (slow.response == quick.response)
        & (slow.answer == quick.answer)
}

// A slot that has a drive.
fn some_slot(r: u64) -> u8 {
    match r % 5 {
        0 => 1,
        1 => 2,
        2 => 4,
        3 => 5,
        _ => 7,
    }
}

impl Run {
    fn new(room: &mut [u8; ROOM]) -> Run {
        let mut run = Run {
            bench: Bench::new(),
            random: Random::new(1984),
            totals: Totals::default(),
        };
        run.bench.fit(room, Drives::Mixed);
        run
    }

    // Sends a word by its bits, and at once to the record as it was before.
    fn both(&mut self, room: &mut [u8; ROOM], word: u32, seed: u64) {
        let before = self.bench.chain;
        let bit = latches(before, word);
        let slow = ways::by_bits(&mut self.bench, room, word, seed);
        let left = mem::replace(&mut self.bench.chain, before);
        let quick = ways::at_once(&mut self.bench, room, word, seed);
        self.bench.chain = left;
        let good = agree(left, slow, quick);
        let state = ways::selected(&before);
        self.totals
            .count(&state, bit, slow.response.is_some(), good);
    }

    fn turn(&mut self, room: &mut [u8; ROOM]) {
        let a = self.random.draw();
        let b = self.random.draw();
        let c = self.random.draw();
        let d = self.random.draw();
        between(&mut self.bench, room, a / 8);
        self.bench.happen(room, Event::Select(some_slot(b / 8)));
        self.both(room, seventeen(some_word(c / 8), d / 8), d);
    }
}

fn main(rt: HostRuntime) -> io::Result<()> {
    let mut room = [0u8; ROOM];
    let mut run = Run::new(&mut room);
    for _ in 0..WORDS {
        run.turn(&mut room);
    }
    let totals = run.totals;
    println!(rt; "words {WORDS}, {totals}")
}
