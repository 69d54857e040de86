// Strings (RFC 8259, section 7), skipped.
ghost use Rattle.std.specs.Prelude.{◌≡◌};
ghost use Rattle.json_text.specs.Reader.{got, many, counted};
ghost use Rattle.json_text.specs.Lexical.{read_char, read_chars, read_string};
ghost use Rattle.json_text.specs.code.Places.{read_at, place_of};
ghost use Rattle.json_text.specs.code.PlainString.{is_plain, is_ascii_char, AsciiString, PlainIs};

use super::byte_at;
use super::escapes::read_escape;
use super::unescaped::{skip_range, skip_unescaped};

fn skip_char(s: &[u8], from: usize) -> Option<usize>
    ensures { result ≡ place_of (read_at read_char s.now from) }
{
    let b = byte_at(s, from);
    if b == Some(b'\\') {
        let (_, j) = read_escape(s, from + 1)?;
        return Some(j);
    }
    // a character of two bytes, told before the others: most that are not ASCII
    if let Some(0xC2..=0xDF) = b {
        return skip_range(s, from + 1, 0x80, 0xBF);
    }
    skip_unescaped(s, from)
}

// What follows the opening quote.
fn skip_chars(s: &[u8], from: usize) -> Option<usize>
    ensures { result ≡ place_of (read_at (counted read_chars) s.now from) }
{
    let mut i = from;
    // character after character, each of which says where the next one begins
    loop {
        if byte_at(s, i) == Some(b'"') {
            return Some(i + 1);
        }
        i = skip_char(s, i)?;
    }
}

pub fn skip_string(s: &[u8], from: usize) -> Option<usize>
    ensures { result ≡ place_of (read_at read_string s.now from) }
{
    if byte_at(s, from) == Some(b'"') {
        skip_chars(s, from + 1)
    } else {
        None
    }
}

// Neither of the two marks.
fn is_plain(b: u8) -> bool
    ensures { result ≡ is_plain b }
{
    b != b'"' && b != b'\\'
}

// The place behind the bytes at a place that are neither of the two marks.
fn skip_plain(s: &[u8], from: usize) -> usize
    ensures { read_at (many is_plain) s.now from ≡ got tt result }
{
    ascii::run_end(s, from, is_plain)
}

// The closing quotation mark of the string at a place, where the string has no escapes: its bytes are those between.
// For a string that was read before: what stands there is not tested again.
pub fn plain_end(s: &[u8], from: usize) -> Option<usize>
    ensures { PlainIs s.now from result }
{
    if s.len() <= from {
        return None;
    }
    let end = skip_plain(s, from + 1);
    if byte_at(s, end) == Some(b'"') {
        Some(end)
    } else {
        None
    }
}

// ---- strings of characters of one byte

// What `unescaped` of the RFC has below 0x80: from 0x20 on (controls are escaped), without the two marks.
fn is_ascii_char(b: u8) -> bool
    ensures { result ≡ is_ascii_char b }
{
    matches!(b, 0x20..=0x7F) && is_plain(b)
}

// The place behind the characters of one byte at a place.
fn skip_ascii(s: &[u8], from: usize) -> usize
    ensures { read_at (many is_ascii_char) s.now from ≡ got tt result }
{
    ascii::run_end(s, from, is_ascii_char)
}

// The place behind the string at a place, where it has characters of one byte only: a short loop for most strings.
pub fn skip_ascii_string(s: &[u8], from: usize) -> Option<usize>
    ensures { AsciiString s.now from result }
{
    if byte_at(s, from) != Some(b'"') {
        return None;
    }
    let end = skip_ascii(s, from + 1);
    if byte_at(s, end) == Some(b'"') {
        Some(end + 1)
    } else {
        None
    }
}
