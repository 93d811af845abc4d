// What a script says: the words of a line, and the record's fields by their names; and what programs say of packs.
#![tactic(auto)]

pub mod fields;
pub mod words;

use counts::{LAST_SLOT, SLOTS};
use pack_read::Pack;
use std::io;
use std::io::Read;

// The script on standard input, to its end or to so many bytes.
pub fn script(rt: &(impl Input + AllocGlobal), most: u64) -> io::Result<Vec<u8>> {
    let mut script = Vec::new(rt.alloc());
    rt.reader().take(most).read_to_end(&mut script)?;
    Ok(script)
}

// The slots of the packs that a file holds.
pub fn say_packs(rt: &impl Print, packs: &[Pack; SLOTS]) -> io::Result<()> {
    rt.print(" packs")?;
    for (slot, pack) in (1..=LAST_SLOT).zip(packs) {
        if pack_read::fitted(*pack) {
            print!(rt; " {slot}")?;
        }
    }
    Ok(())
}
