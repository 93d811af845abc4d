// What the selected drive shows on its lines.
ghost use Rattle.std.specs.Prelude.{◌≡◌};
ghost use Rattle.chain_decide.specs.Shown.{line_sum};

use chain_record::{Chain, slots};
use drive_cable::shows;

// Its lines as a sum; 0 if no fitted drive is selected.
#[tactic(auto, unfolding(crate::specs::Shown::line_sum))]
pub fn line_sum(c: Chain) -> u8
    ensures { result ≡ line_sum c }
{
    let d = slots::look(c);
    if !d.selected {
        return 0;
    }
    shows::sum(d.state)
}
