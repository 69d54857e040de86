// The ends of lines; and lines of the table that find nothing for a host, passed over. Its loops, but for
// `plain_lines`, go on from where a search stopped:
// `split` goes byte for byte, and takes 300 microseconds for the lines of the published table alone (in Rust), the whole pass 190.
// A table and a place in it are two arguments: a struct of both would be made anew at each step.
ghost use Rattle.std.specs.Prelude.{◌≡◌, ◌&&◌, ◌||◌, not, ◌+◌, ◌≤◌, ◌<◌, length, get_or, drop, eqb, ltb, if◌then◌else◌};
ghost use Rattle.ascii.specs.Ascii.{take_while};
ghost use Rattle.hosts.specs.Host.{labels};
ghost use Rattle.hosts.specs.code.Place.{ends_at_label};
ghost use Rattle.suffix.specs.code.Pass.{in_line, in_content};
ghost use Rattle.suffix.specs.code.Idle.{Skipped, SkippedLine, is_like, kind_in, KindBy, KindsOf, KindsBy, step_of, stop_of, StoppedBy, Shallows, ShallowBy};

use crate::in_content;
use ascii::classes::Classes;
use byte_search::ByteRange;
use std::array;

// The first line that may find something: a host, from its start to its end; or another line, of which only the start is known. Two
// findings, neither of them an error or nothing, so no Option or Result; the two places of a host are made and taken apart in this file.
#[derive(Clone, Copy)]
pub enum Stop {
    Host(usize, usize),
    Other(usize),
}

// The end of a line.
const LF: ByteRange = ByteRange {
    lo: b'\n',
    hi: b'\n',
};

// The blanks, the LF, and bytes that stand in comments only.
const BLANKS: ByteRange = ByteRange {
    lo: b'\t',
    hi: b' ',
};

// A byte that is alike to the last one that there is.
fn is_like(last: Option<u8>, b: u8) -> bool
    ensures { result ≡ is_like last b }
{
    last.is_some_and(|c| ascii::alike(b, c))
}

// 0 a letter or digit, 1 one alike to `last`, 6 the hyphen, 7 the dot, 8 LF, 9 the rest. Numbers, since `advance` adds them.
// The table of classes is lent.
fn kind_of(classes: &[u8; 256], last: Option<u8>, b: u8) -> u8
    ensures { KindBy classes.now last b result }
{
    // a letter or a digit
    if classes[usize::from(b)] < 2 {
        if is_like(last, b) {
            return 1;
        }
        return 0;
    }
    if b == b'-' {
        return 6;
    }
    if b == b'.' {
        return 7;
    }
    if b == b'\n' {
        return 8;
    }
    9
}

// The kind of each byte value, for a host, by such a table.
pub fn kinds_by(classes: &[u8; 256], host: &[u8]) -> [u8; 256]
    ensures { KindsBy classes.now host.now result }
{
    let last = host.last().copied();
    // b is below 256
    array::from_fn(|b| kind_of(classes, last, b as u8))
}

// A host, and the kind of each byte value for it: a type, so that a caller of its method has no other table to hand over.
#[derive(Clone, Copy)]
pub struct Kinds<'a> {
    pub host: &'a [u8],
    table: [u8; 256],
    ghost gives: { KindsOf host.now table },
}

impl<'a> Kinds<'a> {
    pub fn new(classes: &Classes, host: &'a [u8]) -> Kinds<'a>
        ensures { result.host.now ≡ host.now }
    {
        let table = kinds_by(classes.table(), host);
        Kinds { host, table }
    }

    // The function `idle_lines` by the kinds for the host.
    pub fn idle_lines(&self, most: usize, depth: usize, last: usize, s: &[u8], from: usize) -> usize
        ensures { Shallows self.now.host.now s.now most depth last from result }
    {
        idle_lines(&self.table, self.host, most, depth, last, s, from)
    }
}

fn kind(kinds: &[u8; 256], b: u8) -> u8
    ensures { result ≡ kind_in kinds.now b }
{
    kinds[usize::from(b)]
}

// Behind an LF, whose kind is 8, a new line begins.
fn line_start(k: u8, start: usize, next: usize) -> usize
    ensures { result ≡ (if eqb k 8 then next else start) }
{
    if k == 8 { next } else { start }
}

// The byte at a place of a line, behind one of a kind: where its line begins, and its kind. The kinds are numbered so that it may
// stand there where one sum is at most 24: a letter or digit (0 or 3) behind any byte; a hyphen (18) behind all but dot (7) and LF (8);
// a dot (21) behind a letter or digit (0 or 1); an LF (24) behind one that is not alike to the host's last byte (0).
fn advance(kinds: &[u8; 256], s: &[u8], at: usize, before: u8, start: usize) -> Option<(usize, u8)>
    requires { at < length s.now }
    ensures { result ≡ step_of (kind_in kinds.now (get_or s.now at 0)) before start (at + 1) }
{
    let k = kind(kinds, s[at]);
    let sum = usize::from(before) + 3 * usize::from(k);
    if 24 < sum {
        return None;
    }
    Some((line_start(k, start, at + 1), k))
}

// Such a byte that may not stand there: the LF (8) behind a byte alike to the host's last (1) ends a host, all else another line.
fn halt(kinds: &[u8; 256], s: &[u8], at: usize, before: u8, start: usize) -> Stop
    requires { at < length s.now }
    ensures { result ≡ stop_of (kind_in kinds.now (get_or s.now at 0)) before start at }
{
    let k = kind(kinds, s[at]);
    if k == 8 {
        if before == 1 {
            return Stop::Host(start, at);
        }
    }
    Stop::Other(start)
}

// Over lines that are hosts whose last byte is not alike to the host's: these cannot match it, nor go deeper than its last label.
// Four bytes a turn, so that the end and the line's length are tested once for four, which an iterator does for each byte. A
// line of 60 bytes or more is left to others: a shorter one has at most 63 behind the turn, and so no label that is too long.
fn plain_lines(kinds: &[u8; 256], host: &[u8], s: &[u8], from: usize) -> Stop
    requires { from ≤ length s.now }
    ensures { StoppedBy kinds.now host.now s.now from result }
{
    let mut start = from;
    // as behind an LF
    let mut before = 8;
    let mut i = from;
    while 4 <= s.len() - i {
        if 60 <= i - start {
            return Stop::Other(start);
        }
        let x = i + 1;
        let y = i + 2;
        let z = i + 3;
        let next = i + 4;
        let one = advance(kinds, s, i, before, start);
        let Some((b, k)) = one else {
            return halt(kinds, s, i, before, start);
        };
        let two = advance(kinds, s, x, k, b);
        let Some((c, l)) = two else {
            return halt(kinds, s, x, k, b);
        };
        let three = advance(kinds, s, y, l, c);
        let Some((d, m)) = three else {
            return halt(kinds, s, y, l, c);
        };
        let four = advance(kinds, s, z, m, d);
        let Some((e, n)) = four else {
            return halt(kinds, s, z, m, d);
        };
        start = e;
        before = n;
        i = next;
    }
    Stop::Other(start)
}

// Where a line ends, its LF or the end; one that ends soon.
pub fn short_end(s: &[u8], from: usize) -> usize
    ensures { result ≡ from + length (take_while in_line (drop from s.now)) }
{
    LF.soon_in(s, from)
}

// The same for any line.
pub fn line_end(s: &[u8], from: usize) -> usize
    ensures { result ≡ from + length (take_while in_line (drop from s.now)) }
{
    LF.first_in(s, from)
}

// Where what is read of a line ends: its first blank or LF. All of these lie between the tab and the space; another byte that does
// stands in comments only. A loop, since each turn begins where the search before it ended.
pub fn content_end(s: &[u8], from: usize) -> usize
    ensures { result ≡ from + length (take_while in_content (drop from s.now)) }
{
    let mut i = BLANKS.first_in(s, from);
    while i < s.len() {
        if !in_content(s[i]) {
            return i;
        }
        i = BLANKS.soon_in(s, i + 1);
    }
    i
}

// Behind the line at a place, where it is empty or a comment; none where it is another, or the table has ended.
fn next_line(s: &[u8], at: usize) -> Option<usize>
    ensures { SkippedLine s.now at result }
{
    let first = *s.get(at)?;
    if first == b'\n' {
        return Some(at + 1);
    }
    if first != b'/' {
        return None;
    }
    let second = *s.get(at + 1)?;
    if second != b'/' {
        return None;
    }
    Some(line_end(s, at + 2) + 1)
}

// Empty lines and comments. A loop, since each turn begins behind the line before, whose end is sought 64 bytes a turn.
fn skip_comments(s: &[u8], from: usize) -> usize
    requires { from ≤ length s.now }
    ensures { Skipped s.now from result }
{
    let mut at = from;
    while let Some(next) = next_line(s, at) {
        at = next;
    }
    at
}

// w is an end of the host of more labels than most.
fn is_more(host: &[u8], most: usize, w: &[u8]) -> bool
    ensures { result ≡ (ends_at_label w.now host.now && ltb most (length (labels w.now))) }
{
    if hosts::ends_at_label(host, w) {
        return most < hosts::label_count(w);
    }
    false
}

// w is longer than tail, and ends in it.
fn is_deeper(tail: &[u8], w: &[u8]) -> bool
    ensures { result ≡ (ltb (length tail.now) (length w.now) && ends_at_label tail.now w.now) }
{
    if tail.len() < w.len() {
        return hosts::ends_at_label(w, tail);
    }
    false
}

// The host w is neither.
fn is_idle(host: &[u8], tail: &[u8], most: usize, w: &[u8]) -> bool
    ensures { result ≡ not ((ends_at_label w.now host.now && ltb most (length (labels w.now))) || (ltb (length tail.now) (length w.now) && ends_at_label tail.now w.now)) }
{
    if is_more(host, most, w) {
        return false;
    }
    if is_deeper(tail, w) {
        return false;
    }
    true
}

// The first line that may match the host in more labels than most or be an exception, or go deeper than more of its labels than
// the depth, whose labels and one more begin at last. Where last lies behind the host's end, which no caller gives, nothing is passed
// over. A place at the table's end or behind it says that no such line is left: a place like any other, from which the caller's lines
// go on, so no Option. The depth is read by the contract alone, which can speak of arguments only. A loop, since each turn begins where
// the pass before it stopped.
pub fn idle_lines(
    kinds: &[u8; 256],
    host: &[u8],
    most: usize,
    depth: usize,
    last: usize,
    s: &[u8],
    from: usize,
) -> usize
    ensures { ShallowBy kinds.now host.now s.now most depth last from result }
{
    if host.len() < last {
        return from;
    }
    let tail = &host[last..];
    let mut at = from;
    while at < s.len() {
        let found = plain_lines(kinds, host, s, at);
        match found {
            Stop::Host(start, to) => {
                if is_idle(host, tail, most, &s[start..to]) {
                    at = to + 1;
                } else {
                    return start;
                }
            }
            Stop::Other(start) => {
                let next = skip_comments(s, start);
                if next == start {
                    return start;
                }
                at = next;
            }
        }
    }
    at
}
