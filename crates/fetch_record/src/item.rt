// The items of a record: each one byte of kind, then a body whose length the kind fixes. Numbers are big-endian.
ghost use Rattle.std.specs.Prelude.{◌≡◌, ◌+◌, ◌≤◌, length};
ghost use Rattle.fetch_record.specs.Record.{read_redirect, read_answer};
ghost use Rattle.fetch_record.specs.code.Meaning.{redirect_in};

// Kind 1, redirect: its status, whether the authorized header was seen, and where its Location stands in the lent text.
#[derive(Clone, Copy)]
pub struct Redirect {
    pub status: u16,
    pub authorized: bool,
    pub start: u16,
    pub size: u16,
}

// Kind 2, answer: its status, and whether the right content type was seen.
#[derive(Clone, Copy)]
pub struct Answer {
    pub status: u16,
    pub type_seen: bool,
}

impl Redirect {
    // The place behind its Location.
    pub(crate) fn location_end(&self) -> usize
        ensures { result ≡ self.now.start + self.now.size }
    {
        usize::from(self.start) + usize::from(self.size)
    }
}

// The fields of a body of kind 1, well formed or not.
pub(crate) fn redirect_in(s: &[u8]) -> Redirect
    requires { 7 ≤ length s.now }
    ensures { result ≡ redirect_in s.now }
{
    Redirect {
        status: u16::from_be_bytes([s[0], s[1]]),
        authorized: s[2] == 1,
        start: u16::from_be_bytes([s[3], s[4]]),
        size: u16::from_be_bytes([s[5], s[6]]),
    }
}

// The body of kind 1, 7 bytes: status (2 bytes, from 300 to 399), authorized header seen (1, value 0 or 1), start and length
// of its Location (2 each).
pub fn read_redirect(s: &[u8]) -> Option<Redirect>
    ensures { result ≡ read_redirect s.now }
{
    if s.len() < 7 {
        return None;
    }
    let redirect = redirect_in(s);
    if redirect.status < 300 {
        return None;
    }
    if 399 < redirect.status {
        return None;
    }
    let header = s[2];
    if 1 < header {
        return None;
    }
    Some(redirect)
}

// The body of kind 2, 3 bytes: status (2), right content type seen (1, value 0 or 1).
pub fn read_answer(s: &[u8]) -> Option<Answer>
    ensures { result ≡ read_answer s.now }
{
    if s.len() < 3 {
        return None;
    }
    let status = u16::from_be_bytes([s[0], s[1]]);
    let seen = s[2];
    if 1 < seen {
        return None;
    }
    Some(Answer {
        status,
        type_seen: seen == 1,
    })
}
