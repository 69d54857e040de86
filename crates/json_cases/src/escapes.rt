// Every `\uXXXX` alone, and the pairs at the ends of the surrogates.
use super::tally::Tally;
use super::texts::Text;

// A surrogate alone is unreadable; any other number decodes to its character's UTF-8.
fn alone(n: u16, upper: bool) -> bool {
    let mut text = Text::new();
    text.put(b'"');
    text.put_escape(n, upper);
    text.put(b'"');
    let Some(c) = char::from_u32(u32::from(n)) else {
        return !text.is_readable();
    };
    let mut content = Text::new();
    content.put_all(c.encode_utf8(&mut [0u8; 4]).as_bytes());
    text.decodes_to(&content)
}

pub fn all_alone() -> Tally {
    let mut t = Tally::none();
    for n in 0u16..=65535 {
        t = t.tell(alone(n, false));
        t = t.tell(alone(n, true));
    }
    t
}

// A pair that decodes to these bytes.
fn pair_is(high: u16, low: u16, decoded: &[u8]) -> bool {
    let mut text = Text::new();
    text.put(b'"');
    text.put_escape(high, true);
    text.put_escape(low, false);
    text.put(b'"');
    let mut content = Text::new();
    content.put_all(decoded);
    text.decodes_to(&content)
}

// The pairs at the ends of the surrogates.
pub fn all_pairs() -> Tally {
    let t = Tally::none().tell(pair_is(0xD800, 0xDC00, b"\xF0\x90\x80\x80"));
    let u = t.tell(pair_is(0xD800, 0xDFFF, b"\xF0\x90\x8F\xBF"));
    let v = u.tell(pair_is(0xDBFF, 0xDC00, b"\xF4\x8F\xB0\x80"));
    v.tell(pair_is(0xDBFF, 0xDFFF, b"\xF4\x8F\xBF\xBF"))
}
