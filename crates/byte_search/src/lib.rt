// The first byte whose value lies in a range, from a place on.
#![tactic(auto)]

ghost use Rattle.std.specs.Prelude.{◌≡◌, ◌+◌, length, drop};
ghost use Rattle.ascii.specs.Ascii.{take_while};
ghost use Rattle.byte_search.specs.code.Ranges.{outside, block_first, place_in};

// The bytes from lo to hi.
#[derive(Clone, Copy)]
pub struct ByteRange {
    pub lo: u8,
    pub hi: u8,
}

impl ByteRange {
    // A byte that is not one of them.
    fn is_outside(self, b: u8) -> bool
        ensures { result ≡ outside self.lo self.hi b }
    {
        b < self.lo || self.hi < b
    }

    // The place k of one of them, 64 of another byte. Numbers, of whose minimum the compiler does many at once: over the lines of the
    // published table an Option in their place takes 4 times as long, `position` 1.6 times.
    fn place_in(self, k: u8, b: u8) -> u8
        ensures { result ≡ place_in self.lo self.hi k b }
    {
        if self.is_outside(b) { 64 } else { k }
    }

    // Which of the 64 bytes of a block is the first of them. Each turn does the same and their number is fixed, so that the compiler
    // does many at once.
    fn first_in_block(self, block: &[u8]) -> Option<usize>
        requires { length block.now ≡ 64 }
        ensures { result ≡ block_first self.lo self.hi block.now 0 }
    {
        let mut r = 64;
        for k in 0..64 {
            r = self.place_in(k, block[usize::from(k)]).min(r);
        }
        if r < 64 { Some(usize::from(r)) } else { None }
    }

    // The first of them, or the end, byte after byte: for one that comes soon.
    pub fn soon_in(self, s: &[u8], from: usize) -> usize
        ensures { result ≡ from + length (take_while (outside self.lo self.hi) (drop from s.now)) }
    {
        ascii::run_end(s, from, |b| self.is_outside(b))
    }

    // The same in blocks of 64 bytes while there are so many. The first byte alone before a block: it is often the one that is sought.
    pub fn first_in(self, s: &[u8], from: usize) -> usize
        ensures { result ≡ from + length (take_while (outside self.lo self.hi) (drop from s.now)) }
    {
        if s.len() <= from {
            return from;
        }
        let mut i = from;
        for block in s[from..].chunks_exact(64) {
            if !self.is_outside(block[0]) {
                return i;
            }
            if let Some(n) = self.first_in_block(block) {
                return i + n;
            }
            // the place of the next block, and behind the last one of the rest, which `remainder` gives without its place
            i += 64;
        }
        self.soon_in(s, i)
    }
}
