// Texts built in a buffer: there is no heap.
use json_text::Decoded;
use normal_forms::write_bytes;

// The first bytes of a buffer. What does not fit is left out.
#[derive(Clone, Copy)]
pub struct Text {
    space: [u8; 1024],
    len: usize,
}

const DIGITS: [u8; 16] = *b"0123456789abcdef";

// The last hexadecimal digit of n; letters in lower case, or in upper.
fn digit(n: u16, upper: bool) -> u8 {
    let lower = DIGITS[usize::from(n % 16)];
    if upper {
        return lower.to_ascii_uppercase();
    }
    lower
}

impl Text {
    pub fn new() -> Text {
        Text {
            space: [0u8; 1024],
            len: 0,
        }
    }

    pub fn put_all(&mut self, bytes: &[u8]) {
        self.len = write_bytes(bytes, &mut self.space, self.len);
    }

    // One byte more.
    pub fn put(&mut self, b: u8) {
        self.put_all(&[b]);
    }

    // The bytes, n times.
    pub fn put_times(&mut self, bytes: &[u8], n: usize) {
        for _ in 0..n {
            self.put_all(bytes);
        }
    }

    // `\u` and the four digits of n.
    pub fn put_escape(&mut self, n: u16, upper: bool) {
        self.put_all(b"\\u");
        self.put(digit(n / 4096, upper));
        self.put(digit(n / 256, upper));
        self.put(digit(n / 16, upper));
        self.put(digit(n, upper));
    }

    pub fn bytes(&self) -> &[u8] {
        ascii::prefix(&self.space, self.len)
    }

    pub fn is_readable(&self) -> bool {
        json_values::is_readable(self.bytes())
    }

    // The text is one string, which decodes to this content, and is held if that has at most 512 bytes.
    pub fn decodes_to(&self, content: &Text) -> bool {
        if !self.is_readable() {
            return false;
        }
        let mut decoded = Decoded::new();
        let Some(_) = decoded.decode_string(self.bytes(), 0) else {
            return false;
        };
        match decoded.held() {
            Some(bytes) => ascii::equal(bytes, content.bytes()),
            None => content.len > 512,
        }
    }
}
