// Every byte in a string, raw and behind a backslash, and every two bytes.
use super::tally::Tally;
use super::texts::Text;

// A string of these bytes is readable.
fn is_string(bytes: &[u8]) -> bool {
    let mut text = Text::new();
    text.put(b'"');
    text.put_all(bytes);
    text.put(b'"');
    text.is_readable()
}

// ASCII, no control byte, quotation mark or backslash.
fn is_plain(b: u8) -> bool {
    matches!(b, 0x20..=0x7F) && b != b'"' && b != b'\\'
}

fn is_short_escape(b: u8) -> bool {
    matches!(b, b'"' | b'\\' | b'/' | b'b' | b'f' | b'n' | b'r' | b't')
}

// Two plain bytes, a short escape, or a character of two bytes (UTF8-2 = %xC2-DF UTF8-tail).
fn is_pair(a: u8, b: u8) -> bool {
    if is_plain(a) {
        return is_plain(b);
    }
    if a == 0x5C {
        return is_short_escape(b);
    }
    matches!(a, 0xC2..=0xDF) && is_tail(b)
}

fn is_tail(b: u8) -> bool {
    matches!(b, 0x80..=0xBF)
}

pub fn all_raw() -> Tally {
    let mut t = Tally::none();
    for b in 0u8..=255 {
        t = t.tell(is_string(&[b]) == is_plain(b));
    }
    t
}

pub fn all_escaped() -> Tally {
    let mut t = Tally::none();
    for b in 0u8..=255 {
        t = t.tell(is_string(&[b'\\', b]) == is_short_escape(b));
    }
    t
}

pub fn all_pairs() -> Tally {
    let mut t = Tally::none();
    for n in 0u16..=65535 {
        let [a, b] = n.to_be_bytes();
        t = t.tell(is_string(&[a, b]) == is_pair(a, b));
    }
    t
}
