// Hosts and their labels.
#![tactic(auto)]

ghost use Rattle.std.specs.List.{list_all};
ghost use Rattle.std.specs.Prelude.{◌≡◌, ◌≤◌, length, drop};
ghost use Rattle.ascii.specs.Ascii.{is_digit, last_of};
ghost use Rattle.hosts.specs.Host.{labels, is_shaped, is_host, is_address};
ghost use Rattle.hosts.specs.code.Lent.{has_label_class, LabelEnds, HostBy};
ghost use Rattle.hosts.specs.code.Place.{Stands, is_boundary, ends_at_label};

use ascii::classes::Classes;

// A letter, digit or hyphen by a table of classes, which is lent, here and below.
fn is_label_byte(classes: &[u8; 256], b: u8) -> bool
    ensures { result ≡ has_label_class classes.now b }
{
    // 0 letters, 1 digits, 2 the hyphen, 3 the dot
    classes[usize::from(b)] < 3
}

// Where the letters, digits and hyphens from a place on end.
fn label_end(classes: &[u8; 256], s: &[u8], from: usize) -> usize
    ensures { LabelEnds classes.now s.now from result }
{
    ascii::run_end(s, from, |b| is_label_byte(classes, b))
}

// 1 to 63 bytes, no hyphen first or last.
fn is_shaped(s: &[u8]) -> bool
    ensures { result ≡ is_shaped s.now }
{
    let n = s.len();
    if n < 1 {
        return false;
    }
    if 63 < n {
        return false;
    }
    if s[0] == b'-' {
        return false;
    }
    if s[n - 1] == b'-' {
        return false;
    }
    true
}

// 1 to 253 bytes of labels joined by dots.
pub fn is_host(s: &[u8]) -> bool
    ensures { result ≡ is_host s.now }
{
    let classes = Classes::new();
    is_host_by(classes.table(), s)
}

// The same by a table of classes that is lent. A loop that goes on from where a label ends: `split` with `all` reads each byte twice, and takes
// 1.2 to 1.8 times as long (the two in Rust).
pub fn is_host_by(classes: &[u8; 256], s: &[u8]) -> bool
    ensures { HostBy classes.now s.now result }
{
    // 1 to 253, both told by the length
    if s.len() < 1 {
        return false;
    }
    if 253 < s.len() {
        return false;
    }
    let mut from = 0;
    loop {
        let to = label_end(classes, s, from);
        if is_shaped(&s[from..to]) {
            if s.len() <= to {
                return true;
            }
            if s[to] != b'.' {
                return false;
            }
            from = to + 1;
        } else {
            return false;
        }
    }
}

// How many labels a host has: one more than dots.
#[tactic(auto, using(crate::proofs::Places::count_is))]
pub fn label_count(h: &[u8]) -> usize
    ensures { result ≡ length (labels h.now) }
{
    h.iter().filter(|b| **b == b'.').count() + 1
}

// Where the labels behind the first n begin.
fn skip_labels(h: &[u8], n: usize) -> usize
    ensures { Stands (drop n (labels h.now)) h.now result }
{
    let mut left = n;
    for (i, b) in h.iter().enumerate() {
        if left == 0 {
            return i;
        }
        if *b == b'.' {
            // Counts dots, and is no index. Of `filter` and `nth` over their places the proof did not close, at what `nth` gives.
            left -= 1;
        }
    }
    h.len()
}

// Where the last n labels begin.
pub fn last_labels(h: &[u8], n: usize) -> usize
    ensures { Stands (last_of n (labels h.now)) h.now result }
{
    let k = label_count(h);
    if k < n { 0 } else { skip_labels(h, k - n) }
}

fn all_digits(s: &[u8]) -> bool
    ensures { result ≡ list_all is_digit s.now }
{
    s.iter().all(|b| ascii::is_digit(*b))
}

// The last label is all digits.
pub fn is_address(h: &[u8]) -> bool
    ensures { result ≡ is_address (labels h.now) }
{
    let k = last_labels(h, 1);
    all_digits(&h[k..])
}

// The place k is the start of h, or stands behind a dot.
fn is_boundary(h: &[u8], k: usize) -> bool
    requires { k ≤ length h.now }
    ensures { result ≡ is_boundary k h.now }
{
    if k == 0 {
        return true;
    }
    if h[k - 1] == b'.' {
        return true;
    }
    false
}

// w is an end of h that begins at a label, without regard to case.
pub fn ends_at_label(h: &[u8], w: &[u8]) -> bool
    ensures { result ≡ ends_at_label w.now h.now }
{
    if h.len() < w.len() {
        return false;
    }
    let k = h.len() - w.len();
    if is_boundary(h, k) {
        ascii::equal_no_case_from_end(&h[k..], w)
    } else {
        false
    }
}
