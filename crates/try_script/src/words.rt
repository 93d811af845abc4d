// The words of a script line, one space between, and the numbers that they say.

// The word with k words in front of it, empty where there are fewer; bytes that are no text are no word.
pub fn word(line: &[u8], k: usize) -> &str {
    line.split(|byte| *byte == b' ')
        .nth(k)
        .and_then(|word| str::from_utf8(word).ok())
        .unwrap_or("")
}

// A digit's value; a small letter is none.
fn digit(c: char) -> Option<u32> {
    if c.is_ascii_lowercase() {
        return None;
    }
    c.to_digit(16)
}

// The low 32 bits of the number that the digits say.
// Stays: no plainer: from_str_radix takes small letters and refuses what 32 bits don't hold, so both would be mended around it.
fn digits(word: &str, base: u32) -> Option<u32> {
    if word.is_empty() {
        return None;
    }
    let mut n = 0u32;
    for c in word.chars() {
        let d = digit(c).filter(|d| *d < base)?;
        n = n.wrapping_mul(base).wrapping_add(d);
    }
    Some(n)
}

// Decimal, or hexadecimal with an h behind it.
fn said(word: &str) -> Option<u32> {
    match word.strip_suffix('h') {
        Some(front) => digits(front, 16),
        None => digits(word, 10),
    }
}

pub fn number(line: &[u8], k: usize) -> Option<u32> {
    said(word(line, k))
}
