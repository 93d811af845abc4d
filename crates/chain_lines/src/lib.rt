// Kinds 1 to 5 at the selected drive: the head lines, the gates, the data line and transfer request.
#![tactic(auto)]

ghost use Rattle.std.specs.Prelude.{◌≡◌};
ghost use Rattle.chain_lines.specs.Signals.{signal_of, heads_event, write_rule, write_gate_event, read_rule, read_gate_event, data_event, carried_word, request_event};

use chain_decision::{Decision, done, heard, ruled};
use chain_record::Seen;
use counts::Head;
use drive_cable::request;
use drive_record::Ruled;
use drive_rules::heads;
use handshake::Fallen;
use lines::Lines;

// A line is set, from l to m; only where that moves it, the selected drive's rule is applied, with the word carried out.
// Stays: no plainer. The rules take d's parts and the decision takes l, so a struct of both, here and below, would be taken apart at once.
#[tactic(auto, unfolding(crate::specs::Signals::signal_of))]
fn signal<F: FnOnce() -> Ruled>(
    d: Seen,
    l: Lines,
    m: Lines,
    same: bool,
    word: Option<u32>,
    rule: F,
) -> Decision
    requires { F.IsAlwaysCallable rule }
    ensures { (r : Ruled) → ((x : Ruled) → F.post rule x → x ≡ r) → result ≡ signal_of d l m same word r }
{
    if same {
        return heard(l, d.selected);
    }
    if !d.selected {
        return heard(m, false);
    }
    ruled(m, word, rule())
}

pub fn head_lines(d: Seen, l: Lines, h: Head) -> Decision
    ensures { result ≡ heads_event d l h }
{
    let m = Lines { heads: h, ..l };
    signal(
        d,
        l,
        m,
        l.heads == h,
        None,
        || heads::meets(d.profile, d.state, h),
    )
}

// Stays: no plainer. write_gate and read_gate over a trait Gate (rises, falls, level, set) would write each of the four twice.
fn write_rule(d: Seen, l: Lines, level: u16) -> Ruled
    ensures { result ≡ write_rule d l level }
{
    if level == 1 {
        return drive_gates::write_rises(d.profile, d.state, l.readgate);
    }
    done(drive_gates::write_falls(d.state))
}

pub fn write_gate(d: Seen, l: Lines, level: u16) -> Decision
    ensures { result ≡ write_gate_event d l level }
{
    let m = Lines {
        writegate: level,
        ..l
    };
    signal(
        d,
        l,
        m,
        l.writegate == level,
        None,
        || write_rule(d, l, level),
    )
}

fn read_rule(d: Seen, l: Lines, level: u16) -> Ruled
    ensures { result ≡ read_rule d l level }
{
    if level == 1 {
        return drive_gates::read_rises(d.profile, d.state, l.writegate);
    }
    done(drive_gates::read_falls(d.state))
}

pub fn read_gate(d: Seen, l: Lines, level: u16) -> Decision
    ensures { result ≡ read_gate_event d l level }
{
    let m = Lines {
        readgate: level,
        ..l
    };
    signal(
        d,
        l,
        m,
        l.readgate == level,
        None,
        || read_rule(d, l, level),
    )
}

pub fn data(d: Seen, l: Lines, level: u8) -> Decision
    ensures { result ≡ data_event d l level }
{
    let m = Lines {
        command: level,
        ..l
    };
    heard(m, d.selected)
}

// The word that a fall hands over to be carried out.
fn carried_word(fallen: Fallen) -> Option<u32>
    ensures { result ≡ carried_word fallen }
{
    match fallen {
        Fallen::Keep(_) => None,
        Fallen::Carry(n) => Some(n),
    }
}

pub fn transfer_request(d: Seen, l: Lines, level: u8) -> Decision
    ensures { result ≡ request_event d l level }
{
    let m = Lines {
        request: level,
        ..l
    };
    let same = l.request == level;
    if level == 1 {
        return signal(d, l, m, same, None, || request::rises(d.state, l));
    }
    let word = carried_word(handshake::fall(d.state.transfer));
    signal(d, l, m, same, word, || request::falls(d.profile, d.state))
}
