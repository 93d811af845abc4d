// A script line as the step that it plays.
//
//     fit N                          a fresh chain: 0 mixed, 1 full, 2 none
//     kind a b = answer value sum    an event
//     send WORD PARITY = a v s       a word by its seventeen bits; what stands behind = is of the last fall
//     part COUNT WORD = a v s        the first bits of a word
//     take WORD PARITY = a v s       the response, bit by bit
//     plain WORD PARITY = w p s      a word handed to the plain word rules: the response (0 0 if none) and the lines
//     set SLOT FIELD = value         the record is changed by hand
//     is SLOT FIELD = value          the record holds this
//     at PLACE = value               the file holds this byte
//     lend LENGTH                    so much of the file is lent
use try_bench::drives::Drives;
use try_script::words;

#[derive(Clone, Copy)]
pub enum Step<'a> {
    Event(u32, u32, u32),
    // seventeen bits, and how many of them
    Send(u32, u32),
    Take(u32),
    Plain(u32),
    Set(Named<'a>, u32),
    Is(Named<'a>, u32),
    At(u32, u32),
    Lend(usize),
    Fit(Drives),
}

// A field of the record.
#[derive(Clone, Copy)]
pub struct Named<'a> {
    pub slot: u32,
    pub name: &'a str,
}

// Sixteen bits and the parity bit.
pub fn with_parity(word: u32, parity: u32) -> u32 {
    word % 65_536 * 2 + parity % 2
}

// Two words of the line, a word's bits and its parity.
pub fn word_at(line: &[u8], k: u8) -> Option<u32> {
    let word = words::number(line, usize::from(k))?;
    let parity = words::number(line, usize::from(k) + 1)?;
    Some(with_parity(word, parity))
}

// The number behind =.
fn value_at(line: &[u8], k: u8) -> Option<u32> {
    if words::word(line, usize::from(k)) != "=" {
        return None;
    }
    words::number(line, usize::from(k) + 1)
}

fn event(line: &[u8]) -> Option<Step<'_>> {
    let kind = words::number(line, 0)?;
    let a = words::number(line, 1)?;
    let b = words::number(line, 2)?;
    Some(Step::Event(kind, a, b))
}

fn part(line: &[u8]) -> Option<Step<'_>> {
    let count = words::number(line, 1)?;
    let word = words::number(line, 2)?;
    Some(Step::Send(with_parity(word, 0), count % 17))
}

fn field_at(line: &[u8]) -> Option<Named<'_>> {
    let slot = words::number(line, 1)?;
    let name = words::word(line, 2);
    Some(Named { slot, name })
}

// None where the line can't be read. What stands behind the = of an event or a word is not looked at here.
pub fn read(line: &[u8]) -> Option<Step<'_>> {
    match words::word(line, 0) {
        "send" => Some(Step::Send(word_at(line, 1)?, 17)),
        "part" => part(line),
        "take" => Some(Step::Take(word_at(line, 1)?)),
        "plain" => Some(Step::Plain(word_at(line, 1)?)),
        "set" => Some(Step::Set(field_at(line)?, value_at(line, 3)?)),
        "is" => Some(Step::Is(field_at(line)?, value_at(line, 3)?)),
        "at" => Some(Step::At(words::number(line, 1)?, value_at(line, 2)?)),
        "lend" => Some(Step::Lend(words::number(line, 1)? as usize)),
        "fit" => {
            let number = words::number(line, 1)?;
            Some(Step::Fit(Drives::from((number % 256) as u8)))
        }
        _ => event(line),
    }
}
