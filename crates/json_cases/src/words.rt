// Small texts, readable and not, with a `|` between one and the next.
use super::tally::Tally;

// Each text is readable, or each is not.
fn each(t: Tally, s: &[u8], expected: bool) -> Tally {
    let mut u = t;
    for piece in s.split(|b| *b == b'|') {
        u = u.tell(json_values::is_readable(piece) == expected);
    }
    u
}

// The first texts are readable, the second ones not.
fn sorted(readable: &[u8], unreadable: &[u8]) -> Tally {
    each(each(Tally::none(), readable, true), unreadable, false)
}

// Strings of one character: both sides of each bound of RFC 3629, section 4.
pub fn utf8() -> Tally {
    sorted(
        b"\"\x24\"|\"\xC2\x80\"|\"\xDF\xBF\"|\"\xE0\xA0\x80\"|\"\xE0\xBF\xBF\"|\"\xE1\x80\x80\"|\"\xEC\xBF\xBF\"|\"\xED\x80\x80\"|\"\xED\x9F\xBF\"|\"\xEE\x80\x80\"|\"\xEF\xBF\xBF\"|\"\xF0\x90\x80\x80\"|\"\xF0\xBF\xBF\xBF\"|\"\xF1\x80\x80\x80\"|\"\xF3\xBF\xBF\xBF\"|\"\xF4\x80\x80\x80\"|\"\xF4\x8F\xBF\xBF\"",
        b"\"\x80\"|\"\xBF\"|\"\xC0\x80\"|\"\xC1\xBF\"|\"\xC2\"|\"\xC2\x7F\"|\"\xC2\xC0\"|\"\xE0\x80\x80\"|\"\xE0\x9F\xBF\"|\"\xE0\xA0\"|\"\xE0\xA0\x7F\"|\"\xE1\x80\xC0\"|\"\xED\xA0\x80\"|\"\xED\xBF\xBF\"|\"\xEF\xBF\"|\"\xF0\x80\x80\x80\"|\"\xF0\x8F\xBF\xBF\"|\"\xF0\x90\x80\"|\"\xF1\x80\x80\x7F\"|\"\xF4\x90\x80\x80\"|\"\xF5\x80\x80\x80\"|\"\xF8\x88\x80\x80\x80\"|\"\xFE\"|\"\xFF\"",
    )
}

// Two escapes, at the ends of the surrogates, and a byte or more between them.
pub fn surrogates() -> Tally {
    sorted(
        b"\"\\uD7FF\\ue000\"|\"\\uD7FF\\u0041\"|\"\\uD800\\udc00\"|\"\\uD800\\udfff\"|\"\\uDBFF\\udc00\"|\"\\uDBFF\\udfff\"|\"\\uE000\\ue000\"|\"\\uE000\\u0041\"",
        b"\"\\uD7FF\\udbff\"|\"\\uD7FF\\udc00\"|\"\\uD7FF\\udfff\"|\"\\uD800\\udbff\"|\"\\uD800\\ue000\"|\"\\uD800\\u0041\"|\"\\uDBFF\\udbff\"|\"\\uDBFF\\ue000\"|\"\\uDBFF\\u0041\"|\"\\uDC00\\udbff\"|\"\\uDC00\\udc00\"|\"\\uDC00\\udfff\"|\"\\uDC00\\ue000\"|\"\\uDC00\\u0041\"|\"\\uDFFF\\udbff\"|\"\\uDFFF\\udc00\"|\"\\uDFFF\\udfff\"|\"\\uDFFF\\ue000\"|\"\\uDFFF\\u0041\"|\"\\uE000\\udbff\"|\"\\uE000\\udc00\"|\"\\uE000\\udfff\"|\"\\uD800x\\uDC00\"|\"\\uD800\\\\\\uDC00\"|\"\\uD800\\n\\uDC00\"|\"\\uD800\" \"\\uDC00\"",
    )
}

// Numbers (RFC 8259, section 6).
pub fn numbers() -> Tally {
    sorted(
        b"0|-0|7|10|-12|0.5|-0.25|1e5|1E5|1e+5|1e-5|1.5e10|0e0|0E-0|123456789012345678901234567890|65535",
        b"|-|+1|01|-01|00|1.|.5|-.5|1.e5|1e|1e+|1e-|--1|1-|0x10|1_000|1,5|Infinity|-Infinity|NaN|1e5.5|1 2",
    )
}

// Words, arrays, objects, blanks, comments, a byte-order mark.
pub fn texts() -> Tally {
    sorted(
        b"true|false|null| \x09\x0A\x0D true \x0D\x0A|[]|{}|[ ]|{ }|[1,2]|{\"a\":1}|{\"a\":1,\"a\":2}| [ 1 , { \"\" : [ ] } ] |\"\"|\"\\u0000\"|\"\x7F\"",
        b"| |tru|True|nul|truex|true true|[|{|[1|[1,]|[,1]|[1 2]|{\"a\"}|{\"a\":}|{\"a\" 1}|{a:1}|{1:1}|{\"a\":1,}|{\"a\":1 \"b\":2}|[}|{]|[1]]|// x|[1] // x|\"a|\"a\\\"|\"\x09\"|'a'|\xEF\xBB\xBF[]|\x0Btrue|\x0Ctrue|\xC2\xA0true|[1]\x00|\x00",
    )
}
