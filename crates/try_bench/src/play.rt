// Events on the cable, one by one or a word's together.
use crate::tally::Tally;
use crate::{ACKNOWLEDGE, ATTENTION, Bench, ROOM, STATUS, Told, numbers};
use chain_decide::shown;
use event::Event;

// A word's bits, to the drive or from it.
const BITS: u32 = 17;

// told: what the last event came to.
#[derive(Clone, Copy)]
pub struct Play {
    pub bench: Bench,
    pub told: Told,
    pub tally: Tally,
}

// How request rises for a bit: it is taken, or put out.
#[derive(Clone, Copy)]
enum Way {
    Taking,
    Responding,
}

impl Play {
    // Nothing played yet, and no drive.
    pub fn new() -> Play {
        Play {
            bench: Bench::new(),
            told: Told::default(),
            tally: Tally::none(),
        }
    }

    // An event by its three numbers.
    pub fn event(&mut self, room: &mut [u8; ROOM], kind: u32, a: u32, b: u32) {
        self.told = self.bench.meet(room, kind, a, b);
        self.tally.count(kind, self.told.answer);
    }

    fn happen(&mut self, room: &mut [u8; ROOM], event: Event) {
        let (kind, a, b) = numbers(event);
        self.event(room, kind, a, b);
    }

    // Whether an event within a word is taken and leaves these lines.
    fn leaves(&mut self, room: &mut [u8; ROOM], event: Event, sum: u8) -> bool {
        self.happen(room, event);
        let taken = Told {
            answer: 0,
            value: 0,
            sum,
        };
        self.told == taken
    }

    // A bit taken: the data line, then request's rise, which raises acknowledge.
    fn takes(&mut self, room: &mut [u8; ROOM], bit: u8, before: u8, open: u8) -> bool {
        let set = self.leaves(room, Event::Data(bit), before);
        self.leaves(room, Event::Request(1), open | ACKNOWLEDGE) & set
    }

    // A response bit put out: request's rise raises acknowledge, and data shows the bit.
    fn puts_out(&mut self, room: &mut [u8; ROOM], bit: u8, open: u8) -> bool {
        self.leaves(
            room,
            Event::Request(1),
            open | ACKNOWLEDGE | bit % 2 * STATUS,
        )
    }

    // The first bits of seventeen, the highest first. Whether every event but the last fall came as it must.
    fn bits(&mut self, room: &mut [u8; ROOM], way: Way, word: u32, count: u32) -> bool {
        let mut good = true;
        let mut before = shown::line_sum(self.bench.chain);
        let open = open_sum(before);
        let count = count.min(BITS);
        for i in 0..count {
            let bit = (word >> (BITS - 1 - i) & 1) as u8;
            good &= match way {
                Way::Taking => self.takes(room, bit, before, open),
                Way::Responding => self.puts_out(room, bit, open),
            };
            let last = i + 1 == count;
            good &= self.leaves(room, Event::Request(0), open) | last;
            before = open;
        }
        good
    }

    // The first bits of a word of seventeen; the last fall's answer is left to the script.
    pub fn send(&mut self, room: &mut [u8; ROOM], word: u32, count: u32) -> bool {
        self.bits(room, Way::Taking, word, count)
    }

    // A response of seventeen bits, which must be this one.
    pub fn take(&mut self, room: &mut [u8; ROOM], word: u32) -> bool {
        self.bits(room, Way::Responding, word, BITS)
    }
}

// The lines while a transfer is open and request low: selected, ready and attention stay, complete is gone.
fn open_sum(sum: u8) -> u8 {
    sum % ACKNOWLEDGE | sum & ATTENTION
}
