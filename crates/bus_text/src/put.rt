// Answer lines, stored as bytes.
ghost use Rattle.std.specs.Prelude.{[], ◌∷◌, ◌+◌, ◌≤◌, ◌<◌, length};
ghost use Rattle.bus_text.specs.TextBytes.{digit_byte};
ghost use Rattle.bus_text.specs.AnswerLine.{decimal_of, field, bytes_of};
ghost use Rattle.bus_text.specs.Stored.{Put, LineStored};

// Stays: no plainer as a struct: the place is what each of these returns, and `Put` says it with the bytes.
fn put_byte(out: &mut [u8], at: usize, byte: u8) -> usize
    requires { at < length out.old }
    ensures { Put out.old at (byte ∷ []) out.new result }
{
    out[at] = byte;
    at + 1
}

// Stays: write! promises its bytes only where it is Ok (WritesOnOk), and put_answer, which can't fail, must have them always.
fn put_digit(out: &mut [u8], at: usize, digit: u64) -> usize
    requires { (digit < 10) × (at < length out.old) }
    ensures { Put out.old at (digit_byte digit ∷ []) out.new result }
{
    put_byte(out, at, b'0' + digit as u8)
}

// A number's digits: those of the number divided by ten, then the last one.
fn put_number(out: &mut [u8], at: usize, n: u64) -> usize
    requires { at + length (decimal_of n) ≤ length out.old }
    ensures { Put out.old at (decimal_of n) out.new result }
{
    if n < 10 {
        return put_digit(out, at, n);
    }
    let last = put_number(out, at, n / 10);
    put_digit(out, last, n % 10)
}

// A number and the byte that ends it.
#[tactic(auto, unfolding(crate::specs::AnswerLine::field))]
fn put_field(out: &mut [u8], at: usize, n: u64, end: u8) -> usize
    requires { at + length (field n end) ≤ length out.old }
    ensures { Put out.old at (field n end) out.new result }
{
    let p = put_number(out, at, n);
    put_byte(out, p, end)
}

// The longest answer line: a count of 20 digits, three numbers of 3, and the byte that ends each.
pub const LONGEST: usize = 33;

// What an answer line says.
#[derive(Clone, Copy)]
pub struct AnswerLine {
    // the count of input lines
    pub count: u64,
    pub answer: u8,
    pub value: u8,
    pub sum: u8,
}

// Stores an answer line at the start of a lent part, and returns how many bytes it has.
// A part too short for the longest line stays as it is, and 0 is returned.
// Stays: a public function that can't fail: where the part is too short it gives 0 (LineStored), and an Option would fail.
pub fn put_answer(out: &mut [u8], line: AnswerLine) -> usize
    ensures { LineStored out.old (bytes_of line) out.new result }
{
    if out.len() < LONGEST {
        return 0;
    }
    let a = put_field(out, 0, line.count, b' ');
    let v = put_field(out, a, line.answer as u64, b' ');
    let s = put_field(out, v, line.value as u64, b' ');
    put_field(out, s, line.sum as u64, b'\n')
}
