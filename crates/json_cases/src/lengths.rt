// Strings of plain bytes and one last character, that decode to 500 to 529 bytes: up to 512 are held.
use super::tally::Tally;
use super::texts::Text;

// A quotation mark, n bytes `a`, the bytes `written`, and `x` m times; these decode to the n bytes, `decoded`, and the m.
fn one(n: usize, m: usize, written: &[u8], decoded: &[u8]) -> bool {
    let mut text = Text::new();
    text.put(b'"');
    text.put_times(b"a", n);
    text.put_all(written);
    text.put_times(b"x", m);
    text.put(b'"');
    let mut content = Text::new();
    content.put_times(b"a", n);
    content.put_all(decoded);
    content.put_times(b"x", m);
    text.decodes_to(&content)
}

// How a last character is written, and its UTF-8: of no byte or one, of two or three, of four.
const LAST: [(&[u8], &[u8]); 11] = [
    (b"", b""),
    (b"b", b"b"),
    (b"\\n", b"\x0A"),
    (b"\\u0000", b"\x00"),
    (b"\\u00e9", b"\xC3\xA9"),
    (b"\xC3\xA9", b"\xC3\xA9"),
    (b"\\u20AC", b"\xE2\x82\xAC"),
    (b"\xE2\x82\xAC", b"\xE2\x82\xAC"),
    (b"\\ud83d\\ude00", b"\xF0\x9F\x98\x80"),
    (b"\xF0\x9F\x98\x80", b"\xF0\x9F\x98\x80"),
    (b"\xF4\x8F\xBF\xBF", b"\xF4\x8F\xBF\xBF"),
];

fn one_length(t: Tally, n: usize, m: usize) -> Tally {
    let mut u = t;
    for (written, decoded) in LAST {
        u = u.tell(one(n, m, written, decoded));
    }
    u
}

pub fn all() -> Tally {
    let mut t = Tally::none();
    for n in 500..525 {
        t = one_length(t, n, 0);
        t = one_length(t, n, 1);
    }
    t
}
