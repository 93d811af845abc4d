// What a board asks of a pack file, in plain numbers: a chain fitted from it, its packs, a pack laid.
#![tactic(auto)]

pub mod fit;
pub mod packs;

use counts::LAST_SLOT;
use event::Answer;

// The last slot, as wide as a slot that C gives.
pub const SLOT: u32 = LAST_SLOT as u32;

// What is lent, a record or a pack, as it is left, and a code: an answer's number in the low byte, what the call says of it in the next,
// a place or a word in the high half.
// Stays: the C interface. C is answered one number (include/esdi.h), so a refusal is a number in it and not an error.
#[derive(Clone, Copy)]
pub struct Coded<T> {
    pub lent: T,
    pub code: u64,
}

pub const SECOND_BYTE: u64 = 256;

pub const HIGH_HALF: u64 = 4_294_967_296;

impl<T> Coded<T> {
    ghost use Rattle.std.specs.Prelude.{◌≡◌};
    ghost use Rattle.c_pack.specs.Code.{refused};

    // A refusal leaves what is lent as it was.
    pub fn refused(lent: T, answer: Answer) -> Coded<T>
        ensures { result ≡ refused lent answer }
    {
        Coded {
            lent,
            code: event::numbers::number(answer) as u64,
        }
    }
}
