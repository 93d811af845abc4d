// The pack file: zero to seven packs, each a medium and then its trailer.
#![tactic(auto)]

pub mod read;

ghost use Rattle.std.specs.Prelude.{◌≡◌};
ghost use Rattle.pack_read.specs.Refusal.{refusal_number};
ghost use Rattle.pack_read.specs.Packs.{no_pack, fitted_b};

use counts::Place;
use pack_profile::Profile;

// Why a file or a laying is refused.
#[derive(Clone, Copy)]
pub enum Refusal {
    Short,
    Distance,
    Form,
    Field,
    Size,
    Order,
    Large,
    Room,
}

// Document 01's number of a refusal.
impl From<Refusal> for u8 {
    ghost from_gives = { λ why n. n ≡ refusal_number why };

    fn from(why: Refusal) -> u8 {
        match why {
            Refusal::Short => 30,
            Refusal::Distance => 31,
            Refusal::Form => 32,
            Refusal::Field => 33,
            Refusal::Size => 34,
            Refusal::Order => 35,
            Refusal::Large => 36,
            Refusal::Room => 37,
        }
    }
}

// A slot's pack: where in the file its medium starts, and its fields. fitted, 0 or 1, has four bytes so that none is padding.
// Stays: the C interface, where fitted is a number.
#[repr(C)]
#[derive(Clone, Copy, Default)]
pub struct Pack {
    pub fitted: u32,
    pub place: Place,
    pub profile: Profile,
}

impl Pack {
    // The longest file, and the longest pack.
    pub const LONGEST: usize = 2_147_483_647;

    // An empty slot.
    pub fn none() -> Pack
        ensures { result ≡ no_pack }
    {
        Pack::default()
    }
}

// Whether a slot has a pack.
pub fn fitted(p: Pack) -> bool
    ensures { result ≡ fitted_b p }
{
    p.fitted == 1
}
