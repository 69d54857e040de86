// Escapes of a string (RFC 8259, section 7), read.
ghost use Rattle.std.specs.Prelude.{◌≡◌};
ghost use Rattle.json_text.specs.Lexical.{hex_value, hex4, code_point, escaped};
ghost use Rattle.json_text.specs.code.Places.{read_at, point_of, hex_at};

use super::{byte_at, skip_word};

// HEXDIG (RFC 5234, B.1), letters in either case (RFC 8259, section 7): its number. A match over
// ranges of bytes, as document 01's "Places and their forms" names it; `char::to_digit` is of characters.
fn hex_value(b: u8) -> Option<u8>
    ensures { result ≡ hex_value b }
{
    match b {
        b'0'..=b'9' => Some(b - b'0'),
        b'A'..=b'F' => Some(b - b'A' + 10),
        b'a'..=b'f' => Some(b - b'a' + 10),
        _ => None,
    }
}

// The same of the byte at a place; past the end there is none.
fn hex_at(s: &[u8], at: usize) -> Option<u8>
    ensures { result ≡ hex_at s.now at }
{
    let b = byte_at(s, at)?;
    hex_value(b)
}

// 4HEXDIG: four hexadecimal digits.
fn read_hex(s: &[u8], from: usize) -> Option<(u32, usize)>
    ensures { result ≡ point_of (read_at hex4 s.now from) }
{
    let a = hex_at(s, from)?;
    let i = from + 1;
    let b = hex_at(s, i)?;
    let j = i + 1;
    let c = hex_at(s, j)?;
    let k = j + 1;
    let d = hex_at(s, k)?;
    Some((
        u32::from(a) * 0x1000 + u32::from(b) * 0x100 + u32::from(c) * 0x10 + u32::from(d),
        k + 1,
    ))
}

// What follows `\u`: a code point, or a high surrogate (0xD800 to 0xDBFF), `\u` and a low one (0xDC00 to 0xDFFF); a
// surrogate not in such a pair is unreadable (document 01, "The list").
fn read_code_point(s: &[u8], from: usize) -> Option<(u32, usize)>
    ensures { result ≡ point_of (read_at code_point s.now from) }
{
    let (c, i) = read_hex(s, from)?;
    match c {
        0xD800..=0xDBFF => {
            let j = skip_word(s, i, b"\\u")?;
            let (low, k) = read_hex(s, j)?;
            match low {
                0xDC00..=0xDFFF => Some((0x10000 + (c - 0xD800) * 0x400 + (low - 0xDC00), k)),
                _ => None,
            }
        }
        0xDC00..=0xDFFF => None,
        _ => Some((c, i)),
    }
}

// What follows a backslash: one of the eight short escapes, with its code point, or `u`.
pub fn read_escape(s: &[u8], from: usize) -> Option<(u32, usize)>
    ensures { result ≡ point_of (read_at escaped s.now from) }
{
    match byte_at(s, from) {
        Some(b'"') => Some((0x22, from + 1)),
        Some(b'\\') => Some((0x5C, from + 1)),
        Some(b'/') => Some((0x2F, from + 1)),
        Some(b'b') => Some((0x08, from + 1)),
        Some(b'f') => Some((0x0C, from + 1)),
        Some(b'n') => Some((0x0A, from + 1)),
        Some(b'r') => Some((0x0D, from + 1)),
        Some(b't') => Some((0x09, from + 1)),
        Some(b'u') => read_code_point(s, from + 1),
        _ => None,
    }
}
