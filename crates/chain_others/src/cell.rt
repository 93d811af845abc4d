// Kind 7: a data cell.
ghost use Rattle.std.specs.Prelude.{◌≡◌};
ghost use Rattle.chain_others.specs.Cell.{cell_spot, touching, cell_event};

use chain_decision::{Change, Decision, Deed, Spot};
use chain_record::Seen;
use counts::Position;
use event::Answer;
use lines::Lines;

// The cell under the selected drive's head.
// Stays: no plainer. The rules take d's parts and the decision takes l, so a struct of both, here and below, would be taken apart at once.
fn spot(d: Seen, l: Lines, position: Position) -> Spot
    ensures { result ≡ cell_spot d l position }
{
    Spot {
        slot: l.select,
        cylinder: d.state.body.arm.cylinder,
        head: d.state.body.head,
        position,
    }
}

// A cell is read or written, and no state changes.
fn touching(l: Lines, deed: Deed) -> Decision
    ensures { result ≡ touching l deed }
{
    Decision {
        lines: l,
        change: Change::Nothing,
        word: None,
        deed,
    }
}

#[tactic(auto, unfolding(crate::specs::Cell::cell_event))]
pub fn data_cell(d: Seen, l: Lines, position: Position, byte: u8) -> Decision
    ensures { result ≡ cell_event d l position byte }
{
    if !d.selected {
        return chain_decision::say(l, Answer::Unselected);
    }
    if position.0 >= d.profile.shape.track.0 {
        return chain_decision::say(l, Answer::PastTrack);
    }
    if d.state.body.writing == 1 {
        return touching(l, Deed::Write(spot(d, l, position), byte));
    }
    if d.state.body.reading == 1 {
        return touching(l, Deed::Read(spot(d, l, position)));
    }
    chain_decision::say(l, Answer::Inhibited)
}
