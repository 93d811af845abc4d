// Head changes: the head lines move, or a drive is entered that has another head.
ghost use Rattle.std.specs.Prelude.{◌≡◌};
ghost use Rattle.drive_rules.specs.Heads.{switched_of, head_change, met_of};

use counts::Head;
use drive_record::{Body, Latched, Outcome, Ruled, State, Timers, faults};
use pack_profile::{Profile, Times};

// The drive takes the new head. The head timer starts where the switch is not at once. Reading ends.
#[tactic(auto, unfolding(crate::specs::Heads::switched_of))]
fn switched(p: Profile, b: Body, h: Head) -> Body
    ensures { result ≡ switched_of p h b }
{
    let e = Body {
        head: h,
        reading: 0,
        ..b
    };
    if p.times.switch.0 > Times::AT_ONCE {
        let timers = Timers {
            head: p.times.switch,
            ..b.timers
        };
        return Body { timers, ..e };
    }
    e
}

#[tactic(auto, unfolding(crate::specs::Heads::head_change))]
fn head_change(p: Profile, s: State, h: Head) -> Ruled
    ensures { result ≡ head_change p h s }
{
    let b = s.body;
    let transfer = s.transfer;
    if b.writing == 1 {
        let f = faults::latch(b, Latched::INTERFACE);
        let body = switched(p, f, h);
        return Ruled {
            state: State { body, transfer },
            outcome: Outcome::Fault,
        };
    }
    let body = switched(p, b, h);
    Ruled {
        state: State { body, transfer },
        outcome: Outcome::Done,
    }
}

// The selected drive meets the head lines, or takes them when it is entered: a head that alters is a head change.
#[tactic(auto, unfolding(crate::specs::Heads::met_of))]
pub fn meets(p: Profile, s: State, h: Head) -> Ruled
    ensures { result ≡ met_of p h s }
{
    if s.body.head == h {
        return Ruled {
            state: s,
            outcome: Outcome::Done,
        };
    }
    head_change(p, s, h)
}
