// Numbers of one, two and four bytes, high byte first, read from a lent part. Past its end stand zeros, so nothing is asked of the caller.
ghost use Rattle.std.specs.Prelude.{◌≡◌};
ghost use Rattle.counts.specs.Bytes.{one as byte_of, two as twoOf, four as fourOf};

pub fn byte(t: &[u8], k: usize) -> u8
    ensures { result ≡ byte_of t.now k }
{
    t.get(k).copied().unwrap_or(0)
}

// Stays: no plainer: two and four share byte alone; from_be_bytes is u16's and u32's own, so one of both would need a trait.
pub fn two(t: &[u8], k: u8) -> u16
    ensures { result ≡ twoOf t.now k }
{
    let at = k as usize;
    u16::from_be_bytes([byte(t, at), byte(t, at + 1)])
}

pub fn four(t: &[u8], k: u8) -> u32
    ensures { result ≡ fourOf t.now k }
{
    let at = k as usize;
    u32::from_be_bytes([
        byte(t, at),
        byte(t, at + 1),
        byte(t, at + 2),
        byte(t, at + 3),
    ])
}
