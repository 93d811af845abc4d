// Microseconds passing on one drive.
ghost use Rattle.std.specs.Prelude.{◌≡◌};
ghost use Rattle.drive_rules.specs.Time.{less_of, motor_after, pass_body, pass_drive};

use counts::Micros;
use drive_record::{Body, Ruled, State, Timers, faults};

fn less(a: Micros, us: Micros) -> Micros
    ensures { result ≡ less_of a us }
{
    Micros(a.0.saturating_sub(us.0))
}

// A starting motor is up when its busy timer reaches 0.
#[tactic(auto, unfolding(crate::specs::Time::motor_after))]
fn motor_after(motor: u8, busy: Micros, us: Micros) -> u8
    ensures { result ≡ motor_after motor busy us }
{
    if motor != Body::STARTING {
        return motor;
    }
    if busy.0 < 1 {
        return motor;
    }
    if us.0 < busy.0 {
        return motor;
    }
    Body::UP
}

// Time lowers both timers.
#[tactic(auto, unfolding(crate::specs::Time::pass_body))]
fn pass_body(b: Body, us: Micros) -> Body
    ensures { result ≡ pass_body us b }
{
    let busy = b.timers.busy;
    let head = b.timers.head;
    let timers = Timers {
        busy: less(busy, us),
        head: less(head, us),
    };
    Body {
        timers,
        motor: motor_after(b.motor, busy, us),
        ..b
    }
}

// Time passes on a drive, and on its transfer, which may be dropped for it.
#[tactic(auto, unfolding(crate::specs::Time::pass_drive))]
pub fn pass(s: State, us: Micros) -> Ruled
    ensures { result ≡ pass_drive us s }
{
    let b = s.body;
    let t = s.transfer;
    let body = pass_body(b, us);
    faults::held(body, handshake::wait(t, us))
}
