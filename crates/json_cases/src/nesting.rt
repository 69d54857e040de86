// Arrays and objects nested 1 to 40 deep: 16 open together are readable, 17 are not.
use super::tally::Tally;
use super::texts::Text;

// `[` n times, and `]` n times.
fn arrays(n: usize) -> bool {
    let mut text = Text::new();
    text.put_times(b"[", n);
    text.put_times(b"]", n);
    text.is_readable()
}

// `{"a":` n times, 1, and `}` n times.
fn objects(n: usize) -> bool {
    let mut text = Text::new();
    text.put_times(b"{\"a\":", n);
    text.put(b'1');
    text.put_times(b"}", n);
    text.is_readable()
}

// An array and an object in turn, n in all: the innermost is an array where n is odd.
fn mixed(n: usize) -> bool {
    let mut text = Text::new();
    text.put_times(b"[{\"a\":", n / 2);
    text.put_times(b"[", n % 2);
    text.put(b'1');
    text.put_times(b"]", n % 2);
    text.put_times(b"}]", n / 2);
    text.is_readable()
}

// One of them closed before the next opens: never deep.
fn beside(n: usize) -> bool {
    let mut text = Text::new();
    text.put(b'[');
    text.put_times(b"[],{},", n);
    text.put_all(b"0]");
    text.is_readable()
}

fn one_depth(t: Tally, n: usize) -> Tally {
    let is_shallow = n <= 16;
    let a = t.tell(arrays(n) == is_shallow);
    let b = a.tell(objects(n) == is_shallow);
    let c = b.tell(mixed(n) == is_shallow);
    c.tell(beside(n))
}

pub fn all() -> Tally {
    let mut t = Tally::none();
    for n in 1..=40 {
        t = one_depth(t, n);
    }
    t
}
