// JSON texts (RFC 8259, sections 2 to 5): values, skipped.
#![tactic(auto)]

ghost use Rattle.std.specs.Prelude.{◌≡◌, not};
ghost use Rattle.ascii.specs.Ascii.{is_none};
ghost use Rattle.json_values.specs.Json.{read_member, read_value, read_json};
ghost use Rattle.json_values.specs.code.MemberName.{member_name};
ghost use Rattle.json_values.specs.code.Folds.{reading, GoesOn, Unheld, FoldsListed, SkipsListed};
ghost use Rattle.json_text.specs.code.Places.{read_at, place_of};

// An array or an object: the two kinds of values with elements.
#[derive(Clone, Copy)]
pub enum Kind {
    Array,
    Object,
}

impl Kind {
    ghost use Rattle.json_values.specs.code.Kinds.{opening, closing};

    // The opening bracket.
    #[tactic(auto, unfolding(crate::specs::code::Kinds::opening))]
    pub fn opening(self) -> u8
        ensures { result ≡ opening self }
    {
        match self {
            Kind::Array => b'[',
            Kind::Object => b'{',
        }
    }

    // The closing bracket.
    #[tactic(auto, unfolding(crate::specs::code::Kinds::closing))]
    pub fn closing(self) -> u8
        ensures { result ≡ closing self }
    {
        match self {
            Kind::Array => b']',
            Kind::Object => b'}',
        }
    }
}

// A value with at most `left` arrays and objects open together.
#[cycle(skip_value)]
pub fn skip_value(s: &[u8], from: usize, left: usize) -> Option<usize>
    ensures { result ≡ place_of (read_at (read_value left) s.now from) }
{
    let b = json_text::byte_at(s, from)?;
    match b {
        b'"' => json_text::strings::skip_string(s, from),
        b'[' => {
            let inner = left.checked_sub(1)?;
            skip_listed(
                s,
                from + 1,
                b']',
                |at: usize| -> Option<usize>
                    ensures { result ≡ place_of (read_at (read_value inner) s.entry.now at) }
                { skip_value(s, at, inner) },
            )
        }
        b'{' => {
            let inner = left.checked_sub(1)?;
            skip_listed(
                s,
                from + 1,
                b'}',
                |at: usize| -> Option<usize>
                    ensures { result ≡ place_of (read_at (read_member (read_value inner)) s.entry.now at) }
                { skip_member(s, at, inner) },
            )
        }
        b'f' => json_text::skip_word(s, from, b"false"),
        b'n' => json_text::skip_word(s, from, b"null"),
        b't' => json_text::skip_word(s, from, b"true"),
        _ => json_text::numbers::skip_number(s, from),
    }
}

// The place of a member's value, behind its name and the colon.
pub fn skip_name(s: &[u8], from: usize) -> Option<usize>
    ensures { result ≡ place_of (read_at member_name s.now from) }
{
    let i = json_text::strings::skip_string(s, from)?;
    let j = json_text::skip_blanks(s, i);
    if json_text::byte_at(s, j) != Some(b':') {
        return None;
    }
    let k = json_text::skip_blanks(s, j + 1);
    Some(k)
}

// A name, a colon and a value.
#[cycle(skip_value)]
fn skip_member(s: &[u8], from: usize, left: usize) -> Option<usize>
    ensures { result ≡ place_of (read_at (read_member (read_value left)) s.now from) }
{
    let k = skip_name(s, from)?;
    skip_value(s, k, left)
}

// What follows the opening byte of an array or an object: items that `skip` passes over, and the byte that closes.
fn skip_listed<F: Fn(usize) -> Option<usize>>(
    s: &[u8],
    from: usize,
    close: u8,
    skip: F,
) -> Option<usize>
    requires callable { F.IsAlwaysCallable skip }
    requires ahead { GoesOn (Unheld (F.post skip)) }
    ensures { SkipsListed (F.post skip) s.now from close result }
{
    let (j, _) = fold_listed(
        s,
        from,
        close,
        (),
        |at: usize, nothing: ()| -> Option<(usize, ())>
            requires { F.IsAlwaysCallable skip }
            ensures { F.post skip at (place_of (reading result)) }
        {
            let j = skip(at)?;
            Some((j, nothing))
        },
    )?;
    Some(j)
}

// What follows the opening byte of an array or an object: items that `item` reads one after another, and the byte that
// closes. `item` takes the place of an item and what is held of those before it, from `start` on.
pub fn fold_listed<A: Copy, F: Fn(usize, A) -> Option<(usize, A)>>(
    s: &[u8],
    from: usize,
    close: u8,
    start: A,
    item: F,
) -> Option<(usize, A)>
    requires callable { F.IsAlwaysCallable item }
    requires ahead { GoesOn (F.post item) }
    ensures { FoldsListed (F.post item) s.now from close start result }
{
    let first = json_text::skip_blanks(s, from);
    if json_text::byte_at(s, first) == Some(close) {
        return Some((first + 1, start));
    }
    let mut at = first;
    let mut held = start;
    // item after item, each of which says where it ends
    loop {
        let (j, now) = item(at, held)?;
        let k = json_text::skip_blanks(s, j);
        let b = json_text::byte_at(s, k);
        if b == Some(close) {
            return Some((k + 1, now));
        }
        if b != Some(b',') {
            return None;
        }
        held = now;
        at = json_text::skip_blanks(s, k + 1);
    }
}

// ---- a whole text

// One value with blanks around it and nothing behind it, nested at most 16 deep (document 01, "The list"; else refusal 10).
pub fn is_readable(s: &[u8]) -> bool
    ensures { result ≡ not (is_none (read_json s.now)) }
{
    let i = json_text::skip_blanks(s, 0);
    let Some(j) = skip_value(s, i, 16) else {
        return false;
    };
    let k = json_text::skip_blanks(s, j);
    s.len() <= k
}
