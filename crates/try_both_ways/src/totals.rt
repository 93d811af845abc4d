// How many words came to what, and how many came differently.
use drive_record::{Body, Latched, State};
use std::fmt;

#[derive(Clone, Copy, Default)]
pub struct Totals {
    refused: u32,
    responses: u32,
    parity: u32,
    invalid: u32,
    seek: u32,
    stopped: u32,
    lost: u32,
    standing: u32,
    differences: u32,
}

fn add(n: &mut u32, on: bool) {
    *n = n.wrapping_add(u32::from(on));
}

impl Totals {
    // A word sent to a drive in a state, with the bit that it latches.
    pub fn count(&mut self, before: &State, bit: u16, responds: bool, good: bool) {
        add(&mut self.refused, bit == Latched::INTERFACE);
        add(&mut self.responses, responds);
        add(&mut self.parity, bit == Latched::PARITY);
        add(&mut self.invalid, bit == Latched::INVALID);
        add(&mut self.seek, bit == Latched::SEEK);
        add(&mut self.stopped, before.body.motor != Body::UP);
        add(&mut self.lost, before.body.arm.lost == 1);
        add(&mut self.standing, before.body.standing == 1);
        add(&mut self.differences, !good);
    }
}

impl fmt::Display for Totals {
    fn fmt<W: fmt::Write>(&self, f: &mut fmt::Formatter<W>) -> fmt::Result {
        let Totals {
            refused,
            responses,
            parity,
            invalid,
            seek,
            stopped,
            lost,
            standing,
            differences,
        } = self;
        write!(
            f,
            "refused {refused}, bit 7 {parity}, bit 5 {invalid}, bit 4 {seek}"
        )?;
        write!(
            f,
            ", responses {responses}, to stopped drives {stopped}, to lost ones {lost}"
        )?;
        write!(
            f,
            ", with a fault standing {standing}, differences {differences}"
        )
    }
}
