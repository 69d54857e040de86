// Strings decoded to UTF-8 bytes, and compared with names.
ghost use Rattle.std.specs.Prelude.{◌≡◌, length};
ghost use Rattle.json_text.specs.Lexical.{read_string};
ghost use Rattle.json_text.specs.code.Places.{read_at, content_of, is_text};

use super::byte_at;
use super::escapes::read_escape;
use super::unescaped::skip_unescaped;

// A decoded string, held by value where it has at most 512 bytes (document 01, "The list").
#[derive(Clone, Copy)]
pub struct Decoded {
    bytes: [u8; 512],
    // none where the string has more
    len: Option<usize>,
    ghost sized: { length bytes ≡ 512 },
}

impl Decoded {
    ghost use Rattle.std.specs.Prelude.{[], ◌∷◌, ◌-◌, take, drop, Some, option_map};
    ghost use Rattle.json_text.specs.Utf8.{encode_utf8};
    ghost use Rattle.json_text.specs.Lexical.{read_char};
    ghost use Rattle.json_text.specs.code.Places.{fit, push, PutsRead};
    ghost use Rattle.json_text.specs.code.Held.{content};

    // The empty string.
    pub fn new() -> Decoded
        ensures { content result ≡ Some [] }
    {
        Decoded {
            bytes: [0u8; 512],
            len: Some(0),
        }
    }

    // What is held; None where the string has more bytes.
    pub fn held(&self) -> Option<&[u8]>
        ensures { option_map (λ s. s.now) result ≡ content self.now }
    {
        let n = self.len?;
        Some(ascii::prefix(&self.bytes, n))
    }

    // The string is this one, which is written without escapes.
    pub fn hold(&mut self, s: &[u8])
        ensures { content self.new ≡ fit s.now }
    {
        self.len = None;
        let n = s.len();
        if n <= 512 {
            self.len = Some(n);
            ascii::overwrite(&mut self.bytes[0..n], s);
        }
    }

    // One byte more.
    fn put(&mut self, b: u8)
        ensures { content self.new ≡ push (content self.old) (b ∷ []) }
    {
        let Some(n) = self.len else {
            return;
        };
        if 512 <= n {
            self.len = None;
            return;
        }
        self.bytes[n] = b;
        self.len = Some(n + 1);
    }

    // The bytes of a part of s more, one by one: a part is one character, of at most four bytes, and a copy of them all would
    // need the bound of the length besides.
    fn put_part(&mut self, s: &[u8], from: usize, to: usize)
        ensures { content self.new ≡ push (content self.old) (take (to - from) (drop from s.now)) }
    {
        let part = ascii::part(s, from, to);
        for b in part {
            self.put(*b);
        }
    }

    // The bytes of a code point more (RFC 3629, section 3, the table): six bits to each byte behind the first. Written out,
    // as the definition is: `char::encode_utf8` asks for a `char`, and a surrogate, which was refused before, is none.
    fn put_code(&mut self, c: u32)
        ensures { content self.new ≡ push (content self.old) (encode_utf8 c) }
    {
        if c < 0x80 {
            self.put(c as u8);
            return;
        }
        if c < 0x800 {
            self.put((0xC0 + c / 64) as u8);
            self.put((0x80 + c % 64) as u8);
            return;
        }
        if c < 0x10000 {
            self.put((0xE0 + c / 4096) as u8);
            self.put((0x80 + c / 64 % 64) as u8);
            self.put((0x80 + c % 64) as u8);
            return;
        }
        self.put((0xF0 + c / 262144 % 8) as u8);
        self.put((0x80 + c / 4096 % 64) as u8);
        self.put((0x80 + c / 64 % 64) as u8);
        self.put((0x80 + c % 64) as u8);
    }

    // One character of a string more, and the place behind it.
    fn put_char(&mut self, s: &[u8], from: usize) -> Option<usize>
        ensures { PutsRead (content self.old) (read_at read_char s.now from) (content self.new) result }
    {
        if byte_at(s, from) == Some(b'\\') {
            let (c, i) = read_escape(s, from + 1)?;
            self.put_code(c);
            return Some(i);
        }
        let j = skip_unescaped(s, from)?;
        self.put_part(s, from, j);
        Some(j)
    }

    // The string at a place in the place of what was held, and the place behind it.
    pub fn decode_string(&mut self, s: &[u8], from: usize) -> Option<usize>
        ensures { PutsRead (Some []) (read_at read_string s.now from) (content self.new) result }
    {
        if byte_at(s, from) != Some(b'"') {
            return None;
        }
        self.len = Some(0);
        let mut i = from + 1;
        // Character after character, each of which says where the next one begins. The loop of `skip_chars` with another step: the
        // closure that a loop of both would take changes what is held, and its contract is longer than the loop.
        loop {
            if byte_at(s, i) == Some(b'"') {
                return Some(i + 1);
            }
            i = self.put_char(s, i)?;
        }
    }
}

// The string at a place, decoded, is this name; a string of more than 512 bytes is none.
pub fn is_name(s: &[u8], from: usize, name: &[u8]) -> bool
    ensures { result ≡ is_text (content_of (read_at read_string s.now from)) name.now }
{
    let mut decoded = Decoded::new();
    let Some(_) = decoded.decode_string(s, from) else {
        return false;
    };
    decoded
        .held()
        .is_some_and(|string| ascii::equal(string, name))
}
