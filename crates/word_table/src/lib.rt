// What a whole command word with its parity comes to on a drive, decided before anything is done.
#![tactic(auto)]

ghost use Rattle.std.specs.Prelude.{◌≡◌};
ghost use Rattle.word_table.specs.Effect.{bit_of};

pub mod decide;
pub mod table;

use drive_record::Latched;
use word_acts::Act;

// A word asks for a response, or does something.
#[derive(Clone, Copy)]
pub enum Effect {
    Status,
    Configuration(u8),
    Does(Act),
}

// Why a word is not carried out.
#[derive(Clone, Copy)]
pub enum WordFault {
    Parity,
    Invalid,
    Blocked,
}

impl WordFault {
    // The bit of the status word that it latches, by its value.
    pub fn bit(self) -> u16
        ensures { result ≡ bit_of self }
    {
        match self {
            WordFault::Parity => Latched::PARITY,
            WordFault::Invalid => Latched::INVALID,
            WordFault::Blocked => Latched::SEEK,
        }
    }
}
