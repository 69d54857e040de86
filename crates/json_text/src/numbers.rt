// Numbers (RFC 8259, section 6).
ghost use Rattle.std.specs.Prelude.{◌≡◌};
ghost use Rattle.ascii.specs.Ascii.{is_digit, text};
ghost use Rattle.json_text.specs.Reader.{got, many, one_of, optional};
ghost use Rattle.json_text.specs.Lexical.{digits, int, frac, exp, read_number};
ghost use Rattle.json_text.specs.code.Places.{read_at, place_of};

use super::byte_at;

pub fn skip_digits(s: &[u8], from: usize) -> usize
    ensures { read_at (many is_digit) s.now from ≡ got tt result }
{
    ascii::run_end(s, from, ascii::is_digit)
}

fn skip_some_digits(s: &[u8], from: usize) -> Option<usize>
    ensures { result ≡ place_of (read_at digits s.now from) }
{
    match byte_at(s, from) {
        Some(b'0'..=b'9') => Some(skip_digits(s, from + 1)),
        _ => None,
    }
}

// int = zero / ( digit1-9 *DIGIT )
fn skip_int(s: &[u8], from: usize) -> Option<usize>
    ensures { result ≡ place_of (read_at int s.now from) }
{
    match byte_at(s, from) {
        Some(b'0') => Some(from + 1),
        Some(b'1'..=b'9') => Some(skip_digits(s, from + 1)),
        _ => None,
    }
}

// A dot without a digit behind it is not skipped: no text goes on with a dot.
fn skip_frac(s: &[u8], from: usize) -> usize
    ensures { read_at (optional frac) s.now from ≡ got tt result }
{
    if byte_at(s, from) == Some(b'.') {
        skip_some_digits(s, from + 1).unwrap_or(from)
    } else {
        from
    }
}

// Beside `skip_minus`, whose grammar has one sign: a function of both would take the signs and look among them.
fn skip_sign(s: &[u8], from: usize) -> usize
    ensures { read_at (optional (one_of (text "+-"))) s.now from ≡ got tt result }
{
    match byte_at(s, from) {
        Some(b'+' | b'-') => from + 1,
        _ => from,
    }
}

fn skip_exp(s: &[u8], from: usize) -> usize
    ensures { read_at (optional exp) s.now from ≡ got tt result }
{
    match byte_at(s, from) {
        Some(b'e' | b'E') => skip_some_digits(s, skip_sign(s, from + 1)).unwrap_or(from),
        _ => from,
    }
}

fn skip_minus(s: &[u8], from: usize) -> usize
    ensures { read_at (optional (one_of (text "-"))) s.now from ≡ got tt result }
{
    if byte_at(s, from) == Some(b'-') {
        from + 1
    } else {
        from
    }
}

pub fn skip_number(s: &[u8], from: usize) -> Option<usize>
    ensures { result ≡ place_of (read_at read_number s.now from) }
{
    let i = skip_int(s, skip_minus(s, from))?;
    Some(skip_exp(s, skip_frac(s, i)))
}
