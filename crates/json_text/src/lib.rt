// The lexical part of JSON (RFC 8259, sections 2, 6 and 7): blanks, words, numbers and strings.
#![tactic(auto)]

pub mod decoding;
pub mod escapes;
pub mod numbers;
pub mod strings;
pub mod unescaped;

ghost use Rattle.std.specs.Prelude.{◌≡◌};
ghost use Rattle.json_text.specs.Reader.{got, word};
ghost use Rattle.json_text.specs.Lexical.{is_blank, ws};
ghost use Rattle.json_text.specs.code.Places.{Peeked, read_at, place_of};

pub use decoding::Decoded;

// The byte at a place; None past the end. A text and a place in it are two arguments, here and in the crates above: a struct of both
// would be made anew at each step, and taken apart in it.
pub fn byte_at(s: &[u8], at: usize) -> Option<u8>
    ensures { Peeked s.now at result }
{
    s.get(at).copied()
}

// ws (RFC 8259, section 2): space, tab, line feed, carriage return.
pub fn is_blank(b: u8) -> bool
    ensures { result ≡ is_blank b }
{
    // by `==`: `matches!` is a quarter slower over line feeds
    b == b' ' || b == b'\t' || b == b'\n' || b == b'\r'
}

// The place behind the blanks at a place; most often there is none.
pub fn skip_blanks(s: &[u8], from: usize) -> usize
    ensures { read_at ws s.now from ≡ got tt result }
{
    if from < s.len() {
        if is_blank(s[from]) {
            return ascii::run_end(s, from + 1, is_blank);
        }
    }
    from
}

// The bytes of w, skipped.
pub fn skip_word(s: &[u8], from: usize, w: &[u8]) -> Option<usize>
    ensures { result ≡ place_of (read_at (word w.now) s.now from) }
{
    if ascii::begins_with(ascii::part(s, from, s.len()), w) {
        Some(from + w.len())
    } else {
        None
    }
}
