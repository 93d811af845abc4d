// An answer as the runner and C are told it: its number and its value.
ghost use Rattle.std.specs.Prelude.{◌≡◌};
ghost use Rattle.event.specs.Answer.{answer_number, answer_value};

use crate::Answer;

// Document 01's number of an answer.
// Stays: an answer has two numbers, this and its value, and `u8::from(answer)` would not say which of them it gives.
pub fn number(a: Answer) -> u8
    ensures { result ≡ answer_number a }
{
    match a {
        Answer::Taken => 0,
        Answer::Read(_) => 1,
        Answer::Written => 2,
        Answer::Unselected => 3,
        Answer::Inhibited => 4,
        Answer::Fault => 5,
        Answer::UnknownKind => 20,
        Answer::OutOfRange => 21,
        Answer::Malformed => 22,
        Answer::WrongLength => 23,
        Answer::Inapplicable => 24,
        Answer::PastTrack => 25,
    }
}

// The byte that an answer gives.
pub fn value(a: Answer) -> u8
    ensures { result ≡ answer_value a }
{
    match a {
        Answer::Read(byte) => byte,
        _ => 0,
    }
}
