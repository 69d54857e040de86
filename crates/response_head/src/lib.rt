// One response head (RFC 9112): a status line, field lines, the empty line last.
#![tactic(auto)]

ghost use Rattle.std.specs.Prelude.{◌≡◌, true, ◌+◌, ◌≤◌, length, drop};
ghost use Rattle.ascii.specs.Ascii.{all, take_while};
ghost use Rattle.response_head.specs.ResponseHead.{is_blank, is_text_byte, is_tchar, is_other, fits_byte, fits_form, read_status, is_list_type, lines_of, read_fields, read_lines, read_head};
ghost use Rattle.response_head.specs.code.Meaning.{Trims, ReadsField, first_by, place_by, seen_with, TextLine, Adds, FieldsRead, Makes, ReadsHead};

use ascii::Span;

// What a whole head says: status and authorized header of a redirect, with the place of its Location; status and right type of
// an answer.
#[derive(Clone, Copy)]
pub enum Head {
    Redirect {
        status: u16,
        authorized: bool,
        location: Span,
    },
    Answer {
        status: u16,
        typed: bool,
    },
}

// A field line: the place of its colon, and where its value stands, without the blanks around it.
#[derive(Clone, Copy)]
struct FieldLine {
    colon: usize,
    value: Span,
}

// The value of the Location lines: where it stands, where there is one line. No Option: no line and several differ, since one
// more makes one of the first.
#[derive(Clone, Copy)]
enum Place {
    Nowhere,
    At(Span),
    Several,
}

// What is seen of the field lines so far: whether the first line of a name has the value that is asked for, where there is a line.
#[derive(Clone, Copy)]
struct Seen {
    authorized: Option<bool>,
    typed: Option<bool>,
    location: Place,
}

// ---- bytes

// SP / HTAB
fn is_blank(b: u8) -> bool
    ensures { result ≡ is_blank b }
{
    if b == b' ' {
        return true;
    }
    b == b'\t'
}

// HTAB / SP / VCHAR / obs-text
fn is_text_byte(b: u8) -> bool
    ensures { result ≡ is_text_byte b }
{
    if b < b' ' {
        return b == b'\t';
    }
    b != 0x7F
}

// tchar: a letter or digit, or one of these marks.
fn is_tchar(b: u8) -> bool
    ensures { result ≡ is_tchar b }
{
    b.is_ascii_alphanumeric() || b"!#$%&'*+-.^_`|~".contains(&b)
}

// Where the text bytes from a place on end.
fn text_end(s: &[u8], from: usize) -> usize
    ensures { result ≡ from + length (take_while is_text_byte (drop from s.now)) }
{
    ascii::run_end(s, from, is_text_byte)
}

// Where the bytes from a place on end, blanks at the end left out.
fn trim_end(s: &[u8], from: usize) -> usize
    requires { from ≤ length s.now }
    ensures { Trims s.now from result }
{
    match s[from..].iter().rposition(|b| !is_blank(*b)) {
        Some(last) => from + last + 1,
        None => from,
    }
}

// ---- lines

// A byte of a form: `0` stands for a digit, another byte for itself.
fn fits_byte(p: u8, b: u8) -> bool
    ensures { result ≡ fits_byte p b }
{
    if p == b'0' {
        return ascii::is_digit(b);
    }
    b == p
}

// The slice s begins with bytes that fit the form.
fn fits_form(form: &[u8], s: &[u8]) -> bool
    requires { length form.now ≤ length s.now }
    ensures { result ≡ fits_form form.now s.now }
{
    form.iter().zip(s).all(|(p, b)| fits_byte(*p, *b))
}

// The status of a status line; the line is of text bytes. Three functions ask for that by contract: a struct with it as a ghost field
// would have to hold the head and two places besides, since `field_seen` gives a place of the head.
fn read_status(line: &[u8]) -> Option<u16>
    requires { all is_text_byte line.now ≡ true }
    ensures { result ≡ read_status line.now }
{
    if line.len() < 13 {
        return None;
    }
    if fits_form(b"HTTP/0.0 000 ", line) {
        ascii::decimals::read_number(&line[9..12])
    } else {
        None
    }
}

// A field line of text bytes.
fn read_field(line: &[u8]) -> Option<FieldLine>
    requires { all is_text_byte line.now ≡ true }
    ensures { ReadsField line.now result }
{
    let colon = ascii::run_end(line, 0, is_tchar);
    if colon == 0 {
        return None;
    }
    if line.len() <= colon {
        return None;
    }
    if line[colon] != b':' {
        return None;
    }
    let from = ascii::run_end(line, colon + 1, is_blank);
    let to = trim_end(line, from);
    let value = Span { from, to };
    Some(FieldLine { colon, value })
}

// ---- fields

// The bytes before a content type's parameters.
fn is_in_type(b: u8) -> bool
    ensures { result ≡ is_other 59 b }
{
    b != b';'
}

// The value is the list's content type.
fn is_list_type(value: &[u8]) -> bool
    ensures { result ≡ is_list_type value.now }
{
    let end = ascii::run_end(value, 0, is_in_type);
    let to = trim_end(&value[0..end], 0);
    ascii::equal_no_case(&value[0..to], b"application/fido.trusted-apps+json")
}

// One line more of a name: the first counts.
fn first_by(x: Option<bool>, right: bool) -> Option<bool>
    ensures { result ≡ first_by x right }
{
    Some(x.unwrap_or(right))
}

// One Location line more.
fn place_by(x: Place, value: Span) -> Place
    ensures { result ≡ place_by x value }
{
    match x {
        Place::Nowhere => Place::At(value),
        Place::At(_) => Place::Several,
        Place::Several => Place::Several,
    }
}

// One field more, whose value stands at a place of the head.
fn seen_with(name: &[u8], value: &[u8], place: Span, x: Seen) -> Seen
    ensures { result ≡ seen_with name.now value.now place x }
{
    if ascii::equal_no_case(name, b"FIDO-AppID-Redirect-Authorized") {
        return Seen {
            authorized: first_by(x.authorized, ascii::equal(value, b"true")),
            ..x
        };
    }
    if ascii::equal_no_case(name, b"Content-Type") {
        return Seen {
            typed: first_by(x.typed, is_list_type(value)),
            ..x
        };
    }
    if ascii::equal_no_case(name, b"Location") {
        return Seen {
            location: place_by(x.location, place),
            ..x
        };
    }
    x
}

// The field line between two places, seen with those before it.
fn field_seen(s: &[u8], at: usize, end: usize, x: Seen) -> Option<Seen>
    requires { TextLine s.now at end }
    ensures { Adds s.now at end x result }
{
    let line = read_field(&s[at..end])?;
    let name_end = at + line.colon;
    let place = Span {
        from: at + line.value.from,
        to: at + line.value.to,
    };
    Some(seen_with(&s[at..name_end], place.of(s), place, x))
}

// The field lines from a place on, the empty line last and nothing behind it. A `while`: each line is looked at for its end, then
// for its parts, and not again, so that the next one begins where a turn says.
fn read_fields(s: &[u8], from: usize) -> Option<Seen>
    ensures { FieldsRead s.now (read_fields (lines_of (drop from s.now))) result }
{
    let mut at = from;
    let mut x = Seen {
        authorized: None,
        typed: None,
        location: Place::Nowhere,
    };
    while at < s.len() {
        let end = text_end(s, at);
        if ascii::begins_with(&s[end..], b"\r\n") {
            if end == at {
                if s.len() - end == 2 {
                    return Some(x);
                }
                return None; // bytes behind
            }
            x = field_seen(s, at, end, x)?;
            at = end + 2;
        } else {
            return None;
        }
    }
    None // no empty line
}

// ---- the head

// What a status and the fields make.
fn reading_of(status: u16, x: Seen) -> Option<Head>
    ensures { Makes status x result }
{
    let typed = x.typed.unwrap_or(false);
    if status < 300 {
        return Some(Head::Answer { status, typed });
    }
    if 399 < status {
        return Some(Head::Answer { status, typed });
    }
    match x.location {
        Place::At(location) => Some(Head::Redirect {
            status,
            authorized: x.authorized.unwrap_or(false),
            location,
        }),
        Place::Nowhere => None,
        Place::Several => None,
    }
}

// A head of any length: status line, field lines, the empty line last.
fn read_lines(head: &[u8]) -> Option<Head>
    ensures { ReadsHead head.now (read_lines (lines_of head.now)) result }
{
    let end = text_end(head, 0);
    if ascii::begins_with(&head[end..], b"\r\n") {
        let status = read_status(&head[0..end])?;
        let x = read_fields(head, end + 2)?;
        reading_of(status, x)
    } else {
        None
    }
}

// At most 8,192 bytes; none: not in this form, or a redirect without its one Location.
pub fn read_head(head: &[u8]) -> Option<Head>
    ensures { ReadsHead head.now (read_head head.now) result }
{
    if 8192 < head.len() {
        return None;
    }
    read_lines(head)
}
