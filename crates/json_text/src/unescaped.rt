// Unescaped characters of a string (RFC 8259, section 7) in UTF-8 (RFC 3629, section 4), skipped.
ghost use Rattle.std.specs.Prelude.{◌≡◌};
ghost use Rattle.json_text.specs.Reader.{byte_range};
ghost use Rattle.json_text.specs.Utf8.{then_tail, then_tails, multibyte_char};
ghost use Rattle.json_text.specs.Lexical.{unescaped};
ghost use Rattle.json_text.specs.code.Places.{read_at, place_of};

use super::byte_at;

// A byte from lo to hi: two numbers, here and below, since each call writes the two that the table of RFC 3629 has.
pub fn skip_range(s: &[u8], from: usize, lo: u8, hi: u8) -> Option<usize>
    ensures { result ≡ place_of (read_at (byte_range lo hi) s.now from) }
{
    let b = byte_at(s, from)?;
    if b < lo {
        return None;
    }
    if hi < b {
        return None;
    }
    Some(from + 1)
}

// A byte from lo to hi, and one from 0x80 to 0xBF. Beside it a second function for two of these: one for both
// would take their number, and branch on it.
fn skip_with_tail(s: &[u8], from: usize, lo: u8, hi: u8) -> Option<usize>
    ensures { result ≡ place_of (read_at (then_tail lo hi) s.now from) }
{
    let i = skip_range(s, from, lo, hi)?;
    skip_range(s, i, 0x80, 0xBF)
}

// A byte from lo to hi, and two from 0x80 to 0xBF.
fn skip_with_tails(s: &[u8], from: usize, lo: u8, hi: u8) -> Option<usize>
    ensures { result ≡ place_of (read_at (then_tails lo hi) s.now from) }
{
    let i = skip_range(s, from, lo, hi)?;
    skip_with_tail(s, i, 0x80, 0xBF)
}

// UTF8-2, UTF8-3 or UTF8-4 (RFC 3629, section 4), each bound as it stands there.
fn skip_multibyte(s: &[u8], from: usize) -> Option<usize>
    ensures { result ≡ place_of (read_at multibyte_char s.now from) }
{
    match byte_at(s, from) {
        Some(0xC2..=0xDF) => skip_range(s, from + 1, 0x80, 0xBF),
        Some(0xE0) => skip_with_tail(s, from + 1, 0xA0, 0xBF),
        Some(0xE1..=0xEC) => skip_with_tail(s, from + 1, 0x80, 0xBF),
        Some(0xED) => skip_with_tail(s, from + 1, 0x80, 0x9F),
        Some(0xEE..=0xEF) => skip_with_tail(s, from + 1, 0x80, 0xBF),
        Some(0xF0) => skip_with_tails(s, from + 1, 0x90, 0xBF),
        Some(0xF1..=0xF3) => skip_with_tails(s, from + 1, 0x80, 0xBF),
        Some(0xF4) => skip_with_tails(s, from + 1, 0x80, 0x8F),
        _ => None,
    }
}

// unescaped = %x20-21 / %x23-5B / %x5D-10FFFF, from 0x80 on in UTF-8.
pub fn skip_unescaped(s: &[u8], from: usize) -> Option<usize>
    ensures { result ≡ place_of (read_at unescaped s.now from) }
{
    match byte_at(s, from) {
        Some(0x20..=0x21) => Some(from + 1),
        Some(0x23..=0x5B) => Some(from + 1),
        Some(0x5D..=0x7F) => Some(from + 1),
        Some(0x80..=0xFF) => skip_multibyte(s, from),
        _ => None,
    }
}
