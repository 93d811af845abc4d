// How many events of each kind were played, and how many answers of each number came.
use std::fmt;

const KINDS: usize = 9;

const ANSWERS: usize = 26;

#[derive(Clone, Copy)]
pub struct Tally {
    pub kinds: [u32; KINDS],
    pub answers: [u32; ANSWERS],
}

impl Tally {
    pub fn none() -> Tally {
        Tally {
            kinds: [0; KINDS],
            answers: [0; ANSWERS],
        }
    }

    pub fn count(&mut self, kind: u32, answer: u8) {
        count_one(&mut self.kinds, kind as usize);
        count_one(&mut self.answers, usize::from(answer));
    }
}

// One more of a number; one that is not counted changes nothing.
fn count_one(counts: &mut [u32], number: usize) {
    if let Some(n) = counts.get_mut(number) {
        *n = n.wrapping_add(1);
    }
}

// A line for each number that came at all.
#[derive(Clone, Copy)]
struct Counts<'a> {
    name: &'a str,
    counts: &'a [u32],
}

impl fmt::Display for Counts<'_> {
    fn fmt<W: fmt::Write>(&self, f: &mut fmt::Formatter<W>) -> fmt::Result {
        let name = self.name;
        for (number, n) in self.counts.iter().enumerate() {
            if *n > 0 {
                writeln!(f, "{name} {number}: {n}")?;
            }
        }
        Ok(())
    }
}

impl fmt::Display for Tally {
    fn fmt<W: fmt::Write>(&self, f: &mut fmt::Formatter<W>) -> fmt::Result {
        let kinds = Counts {
            name: "kind",
            counts: &self.kinds,
        };
        let answers = Counts {
            name: "answer",
            counts: &self.answers,
        };
        write!(f, "{kinds}{answers}")
    }
}
