// Lays and reads pack files as the script on standard input says, and prints each answer's number and place. The script
// provokes every refusal that files of this size can meet: each alone, and each next to the one before it in the order.
// A line of three numbers (what, place, value) is a step; any other line is a heading and is printed as it stands.
#![tactic(auto)]

use bus_text::{Numbers, Scan};
use counts::{Cylinder, Heads, Position, SectorSize};
use pack_profile::{Profile, Shape};
use pack_read::read;
use std::rt::Files;
use std::{fs, io, mem};

// Every place that a step can name.
const ROOM: usize = 65_536;

// Two packs of the smallest drive, in which single bytes are changed.
const FILE: usize = 2 * bus_smallest::PACK;

// The longest script.
const SCRIPT: u64 = 16_384;

// What a step does, by its number.
enum What {
    LaySmallest,
    Set,
    Read,
    Try,
    Slot,
    Byte,
    LayLarge,
}

// Any other number does what the last does.
impl From<u16> for What {
    fn from(number: u16) -> What {
        match number {
            0 => What::LaySmallest,
            1 => What::Set,
            2 => What::Read,
            3 => What::Try,
            4 => What::Slot,
            5 => What::Byte,
            _ => What::LayLarge,
        }
    }
}

// The first n bytes, or all where there are fewer.
fn front(file: &[u8], n: usize) -> &[u8] {
    &file[..n.min(file.len())]
}

// The number and the place, and the slots found: none where the file is refused.
fn show_read(rt: &impl Print, file: &[u8]) -> io::Result<()> {
    let found = read::read(file);
    let number = read::number(found);
    let place = read::place(found);
    print!(rt; " {number} {place}")?;
    if let Ok(packs) = found {
        try_script::say_packs(rt, &packs)?;
    }
    println!(rt)
}

fn show_front(rt: &impl Print, word: &str, file: &[u8], n: usize) -> io::Result<()> {
    print!(rt; "{word} {n}")?;
    show_read(rt, front(file, n))
}

// Where a slot's pack starts; 0 where there is no such slot.
fn place_of(file: &[u8; ROOM], slot: u16) -> u32 {
    let Some(i) = usize::from(slot).checked_sub(1) else {
        return 0;
    };
    let Ok(packs) = read::read(front(file, FILE)) else {
        return 0;
    };
    packs.get(i).map_or(0, |pack| pack.place.0)
}

// The two packs with one byte changed, which is set back.
fn show_tried(rt: &impl Print, file: &mut [u8; ROOM], place: u16, value: u8) -> io::Result<()> {
    print!(rt; "try {place} {value}")?;
    let old = mem::replace(&mut file[usize::from(place)], value);
    show_read(rt, front(file, FILE))?;
    file[usize::from(place)] = old;
    Ok(())
}

// The smallest drive but for its size, with the longest tracks.
fn large(cylinders: u16, heads: u8) -> Profile {
    let shape = Shape {
        cylinders: Cylinder(cylinders),
        heads: Heads(u16::from(heads)),
        track: Position(Shape::LONGEST_TRACK),
        sector: SectorSize(512),
    };
    Profile {
        shape,
        ..bus_smallest::drive(1)
    }
}

fn lay(rt: &impl Print, part: &mut [u8], p: Profile) -> io::Result<()> {
    let number = pack_lay::number(pack_lay::lay(p, part));
    println!(rt; " {number}")
}

fn step(rt: &impl Print, file: &mut [u8; ROOM], n: Numbers) -> io::Result<()> {
    let place = n.a;
    let at = usize::from(place);
    let value = (n.b % 256) as u8;
    match What::from(n.kind) {
        What::LaySmallest => {
            print!(rt; "lay {value} {place}")?;
            lay(rt, &mut file[at..], bus_smallest::drive(value))
        }
        What::Set => {
            file[at] = value;
            Ok(())
        }
        What::Read => show_front(rt, "read", file, at),
        What::Try => show_tried(rt, file, place, value),
        What::Slot => {
            let start = place_of(file, place);
            println!(rt; "slot {place} {start}")
        }
        What::Byte => {
            let byte = file[at];
            println!(rt; "byte {place} {byte}")
        }
        // too much for the room, or more than any pack may have
        What::LayLarge => {
            print!(rt; "large {place} {value}")?;
            lay(rt, file, large(place, value))
        }
    }
}

fn line(rt: &impl Print, file: &mut [u8; ROOM], line: &[u8]) -> io::Result<()> {
    let stop = bus_text::read::scan_on(line, Scan::fresh());
    let Some(numbers) = bus_text::read::finish(stop.scan) else {
        rt.write_all(&line[..stop.at])?;
        return println!(rt);
    };
    step(rt, file, numbers)
}

// The two packs on disk and back: the bytes that came back.
fn through_disk(rt: &(impl Files + AllocGlobal), file: &[u8; ROOM]) -> io::Result<Vec<u8>> {
    let name = "packs.img";
    fs::write(rt, name, front(file, FILE))?;
    fs::read(rt, name)
}

fn main(rt: HostRuntime) -> io::Result<()> {
    let script = try_script::script(&rt, SCRIPT)?;
    let mut file = [0u8; ROOM];
    for text in script.split_inclusive(|byte| *byte == b'\n') {
        line(&rt, &mut file, text)?;
    }
    let again = through_disk(&rt, &file)?;
    show_front(&rt, "disk", &again, again.len())
}
