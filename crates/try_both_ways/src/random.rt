// Numbers that look random and are the same in every run.
ghost use Rattle.std.specs.Prelude.{◌≤◌, ◌-◌};

use counts::Micros;

// The next of a sequence that meets every number from 1 to 2,147,483,646.
fn next(seed: u64) -> u64 {
    seed % 2_147_483_647 * 48_271 % 2_147_483_647
}

#[derive(Clone, Copy)]
pub struct Random {
    seed: u64,
}

impl Random {
    pub fn new(seed: u64) -> Random {
        Random { seed }
    }

    pub fn draw(&mut self) -> u64 {
        self.seed = next(self.seed);
        self.seed
    }
}

// One of the numbers below n; 0 where there are none.
pub fn below(r: u64, n: u64) -> u64
    ensures { result ≤ n - 1 }
{
    (r / 4).checked_rem(n).unwrap_or(0)
}

// A wait between two request edges, in two parts. None is longer than 10,000 microseconds.
#[derive(Clone, Copy)]
pub struct Wait {
    pub first: Micros,
    pub second: Micros,
}

// The waits of a word, one behind the other.
#[derive(Clone, Copy)]
pub struct Waits {
    seed: u64,
    at: u32,
}

fn stretch(r: u64) -> u32 {
    match r % 8 {
        0 => 10_000,
        1 => below(r, 10_001) as u32,
        2 => below(r, 100) as u32,
        3 => 1,
        _ => 0,
    }
}

impl Waits {
    pub fn new(seed: u64) -> Waits {
        Waits { seed, at: 0 }
    }

    pub fn draw(&mut self) -> Wait {
        let r = next(next(self.seed % 2_147_483_647 + u64::from(self.at)));
        self.at = self.at.wrapping_add(1);
        let all = stretch(r / 16);
        let some = all / 3;
        Wait {
            first: Micros(some),
            second: Micros(all - some),
        }
    }
}
