ghost use Rattle.std.specs.Prelude.{◌≡◌, ℕ, ◌+◌, ◌<◌, true, ◌++◌, take, drop, IfOk, string_bytes, OnOk};
ghost use Rattle.listing.specs.Text.{LineEnds, digit, hex_bytes, plain, quoted_bytes, shown_byte};

use std::alloc::{AllocError, Global};

// Bytes between quotes. One that is no plain character, a quote or a backslash is shown as \x and two digits.
pub fn quoted(heap: Global, bytes: &[u8]) -> Result<String, AllocError>
    ensures { IfOk result (λ s. string_bytes s ≡ quoted_bytes bytes.now) }
{
    let mut s = String::new(heap);
    s.push('"')?;
    for b in bytes {
        push_shown(&mut s, *b)?;
    }
    s.push('"')?;
    Ok(s)
}

// Bytes in hexadecimal, two digits each.
pub fn hex(heap: Global, bytes: &[u8]) -> Result<String, AllocError>
    ensures { IfOk result (λ s. string_bytes s ≡ hex_bytes bytes.now) }
{
    hex::encode(heap, bytes)
}

// The first line of the bytes without its line feed, and what comes after it.
pub fn first_line(bytes: &[u8]) -> (&[u8], &[u8])
    ensures { (n : ℕ) × LineEnds bytes.now n × (result.0.now ≡ take n bytes.now) × (result.1.now ≡ drop (n + 1) bytes.now) }
{
    match bytes.iter().position(|b| *b == b'\n') {
        Some(n) => (&bytes[..n], &bytes[n + 1..]),
        None => (bytes, &[]),
    }
}

// One byte of a quoted text.
fn push_shown(s: &mut String, b: u8) -> Result<(), AllocError>
    ensures { OnOk result (string_bytes s.new ≡ string_bytes s.old ++ shown_byte b) }
{
    if is_plain(b) {
        s.push(b as char)?;
        return Ok(());
    }
    // Digit by digit: with `write!(s, "\\x{b:02x}")` a text of such bytes took three times as long.
    s.push_str("\\x")?;
    s.push(hex_digit(b / 16))?;
    s.push(hex_digit(b % 16))?;
    Ok(())
}

// Whether a byte stands as itself in a quoted text.
fn is_plain(b: u8) -> bool
    ensures value { result ≡ plain b }
    ensures ascii { result ≡ true → b < 128 }
{
    b >= 32 && b < 127 && b != b'"' && b != b'\\'
}

// The character of a hexadecimal digit.
fn hex_digit(n: u8) -> char
    requires { n < 16 }
    ensures value { result ≡ digit n }
    ensures ascii { result < 128 }
{
    if n < 10 {
        (b'0' + n) as char
    } else {
        (b'a' + n - 10) as char
    }
}
