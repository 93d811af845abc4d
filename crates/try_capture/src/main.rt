// Small captures fed to `bus_capture`, on the smallest drive in slots 1 and 3: the answer lines are held to crates/try_capture/stdout,
// which is worked out from the papers. 51 is a fresh drive, selected: 1 selected, 2 ready, 16 attention (power on), 32 complete.
#![tactic(auto)]

use bus_capture::Session;
use bus_output::BLOCK;
use capture_samples::LENGTH;
use std::io;

// The length of two packs of the smallest drive.
const TWO: usize = 2 * bus_smallest::PACK;

// Says answer lines, where there is something to say them on.
fn said(on: Option<&impl Print>, lines: &[u8]) -> io::Result<()> {
    match on {
        Some(rt) => rt.write_all(lines),
        None => Ok(()),
    }
}

// Feeds a capture turn by turn. Gives how many bytes were put out.
fn fed<R: Print>(
    rt: &R,
    capture: &[u8],
    out: &mut [u8; BLOCK],
    file: &mut [u8],
    first: Session,
    on: Option<&R>,
) -> io::Result<u64> {
    let mut session = first;
    let mut rest = capture;
    let mut bytes = 0u64;
    while rest.len() >= LENGTH {
        let t = bus_capture::feed(rest, out, file, session);
        said(on, &out[..t.at])?;
        session = t.session;
        bytes = bytes.wrapping_add(t.at as u64);
        rest = &rest[t.used..];
    }
    rt.print(session.lines)?;
    Ok(bytes)
}

fn run_two<R: Print>(
    rt: &R,
    file: &mut [u8; TWO],
    out: &mut [u8; BLOCK],
    capture: &[u8],
    on: Option<&R>,
) -> io::Result<()> {
    let _ = pack_lay::lay(bus_smallest::drive(1), file);
    let _ = pack_lay::lay(bus_smallest::drive(3), &mut file[bus_smallest::PACK..]);
    let fitted = chain_fit::fit(file);
    match fitted.answer {
        Ok(()) => {
            let first = bus_capture::opened(fitted.chain, capture);
            let bytes = fed(rt, capture, out, file, first, on)?;
            println!(rt; " lines, {bytes} bytes")
        }
        Err(_) => rt.print("not fitted\n"),
    }
}

// A capture on a fresh chain; one that is none is only said to be bad, and where.
fn run<'a, R: Print>(rt: &'a R, name: &str, capture: &[u8], on: Option<&'a R>) -> io::Result<()> {
    rt.print(name)?;
    let good = capture_samples::good_bytes(capture);
    if good != capture.len() {
        return println!(rt; "40 at {good}");
    }
    let mut file = [0u8; TWO];
    let mut out = [0u8; BLOCK];
    run_two(rt, &mut file, &mut out, capture, on)
}

// Stamps 0, 0, 1, 65,536, 131,072 and 262,142 with select 1: it is selected, and the gaps of 0, 1, 65,535, 65,536 and 131,070
// are no event, one, one, two (65,535 and 1) and two (65,535 twice).
fn gaps(rt: &impl Print) -> io::Result<()> {
    let capture = b"\x00\x00\x00\x00\x00\x01\
        \x00\x00\x00\x00\x00\x01\
        \x00\x00\x00\x01\x00\x01\
        \x00\x01\x00\x00\x00\x01\
        \x00\x02\x00\x00\x00\x01\
        \x00\x03\xff\xfe\x00\x01";
    run(rt, "gaps\n", capture, Some(rt))
}

// The runner's own example: 5 pass, from 2 before the stamp runs over to 3 behind; select 1, write gate up and down, select 2.
fn runs_over(rt: &impl Print) -> io::Result<()> {
    let capture = b"\xff\xff\xff\xfe\x00\x00\
        \x00\x00\x00\x03\x00\x00\
        \x00\x00\x00\x03\x00\x01\
        \x00\x00\x00\x03\x01\x01\
        \x00\x00\x00\x03\x00\x01\
        \x00\x00\x00\x03\x00\x02";
    run(rt, "runs over\n", capture, Some(rt))
}

// Every line in one sample: select 1 (0), head 1 (0), read gate without that head (4), write gate on a read gate (5), data (0),
// request with a gate on (5); and every line back, with no drive selected from the first on (3).
fn six_lines(rt: &impl Print) -> io::Result<()> {
    let capture = b"\x00\x00\x00\x09\x07\x89\
        \x00\x00\x00\x09\x00\x00";
    run(rt, "six lines\n", capture, Some(rt))
}

// Select 1, then a gap of 4,294,967,295, which is 65,537 events: their lines fill the output many times over inside one sample.
fn longest_gap(rt: &impl Print) -> io::Result<()> {
    let capture = b"\x00\x00\x00\x01\x00\x01\
        \x00\x00\x00\x00\x00\x01";
    run(rt, "longest gap\n", capture, None)
}

fn main(rt: HostRuntime) -> io::Result<()> {
    gaps(&rt)?;
    runs_over(&rt)?;
    six_lines(&rt)?;
    longest_gap(&rt)?;
    run(&rt, "no sample\n", b"", Some(&rt))?;
    run(
        &rt,
        "bit 11\n",
        b"\x00\x00\x00\x00\x00\x01\x00\x00\x00\x00\x08\x01",
        Some(&rt),
    )?;
    run(
        &rt,
        "half a sample\n",
        b"\x00\x00\x00\x00\x00\x01\x00\x00\x00",
        Some(&rt),
    )
}
