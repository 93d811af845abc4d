// A chain fitted from a pack file; a refused file leaves the record as it was.
ghost use Rattle.std.specs.Prelude.{◌≡◌};
ghost use Rattle.c_pack.specs.Fit.{refusal_code, lent_fit};

use crate::{Coded, HIGH_HALF};
use chain_record::Chain;
use pack_read::read::Refused;

// A refusal's number, and its place in the high half.
pub(crate) fn refusal_code(refused: Refused) -> u64
    ensures { result ≡ refusal_code refused }
{
    u8::from(refused.why) as u64 + refused.place.0 as u64 * HIGH_HALF
}

#[tactic(auto, unfolding(crate::specs::Fit::lent_fit))]
pub fn fit(c: Chain, file: &[u8]) -> Coded<Chain>
    ensures { result ≡ lent_fit c file.now }
{
    let found = chain_fit::fit(file);
    match found.answer {
        Ok(()) => Coded {
            lent: found.chain,
            code: 0,
        },
        Err(refused) => Coded {
            lent: c,
            code: refusal_code(refused),
        },
    }
}
