// The fresh chain of a pack file.
#![tactic(auto)]

ghost use Rattle.std.specs.Prelude.{◌≡◌, length};
ghost use Rattle.counts.specs.Slots.{map_with};
ghost use Rattle.chain_fit.specs.Fresh.{low_lines, fresh_slot, blank_states, end_of, chain_of, fresh_fit};

use chain_record::Chain;
use counts::{Place, SLOTS};
use drive_record::State;
use lines::Lines;
use pack_read::read::Refused;
use pack_read::{Pack, read};
use std::array;

// A chain, or why its file is refused and where; the chain is then the empty one.
// Stays: law_chain's theorem refused_empty speaks of the chain of a refused file too.
#[derive(Clone, Copy)]
pub struct Fitted {
    pub answer: Result<(), Refused>,
    pub chain: Chain,
}

fn low() -> Lines
    ensures { result ≡ low_lines }
{
    Lines::default()
}

#[tactic(auto, unfolding(crate::specs::Fresh::fresh_slot))]
fn fresh_slot(p: Pack, s: State) -> State
    ensures { result ≡ fresh_slot p s }
{
    if !pack_read::fitted(p) {
        return s;
    }
    State::fresh(p.profile)
}

fn fresh_states(packs: [Pack; SLOTS]) -> [State; SLOTS]
    ensures { result ≡ map_with fresh_slot packs blank_states }
{
    array::from_fn(|i| fresh_slot(packs[i], State::blank()))
}

// The length of a file that reads whole.
#[tactic(auto, unfolding(crate::specs::Fresh::end_of))]
fn end_of(n: usize) -> u32
    ensures { result ≡ end_of n }
{
    if n > Pack::LONGEST {
        return 0;
    }
    n as u32
}

// Each drive fresh, on a file so long.
fn chain_of(packs: [Pack; SLOTS], length: u32) -> Chain
    ensures { result ≡ chain_of packs length }
{
    Chain {
        packs,
        states: fresh_states(packs),
        lines: low(),
        length: Place(length),
    }
}

// The chain fitted from a pack file; a refused one counts as empty.
#[tactic(auto, unfolding(crate::specs::Fresh::fresh_fit))]
pub fn fit(file: &[u8]) -> Fitted
    ensures { result ≡ fresh_fit file.now }
{
    match read::read(file) {
        Ok(packs) => Fitted {
            answer: Ok(()),
            chain: chain_of(packs, end_of(file.len())),
        },
        Err(refused) => Fitted {
            answer: Err(refused),
            chain: chain_of([Pack::none(); SLOTS], 0),
        },
    }
}
