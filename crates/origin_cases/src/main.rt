// Boundary and malformed identifiers: each line of the input, then some made here. A line is six marks and the text, or a name for it: h begins `https://`, n begins
// with a native prefix; w web origin; u HTTPS URL; a android; i ios; f facet; - where it is not so. The file stdout
// holds what document 01 says of each.
#![tactic(auto)]

use full_reads::read_full;
use origin::Parts;
use std::io;

mod forms;

fn mark(rt: &impl Print, yes: bool, letter: &[u8]) -> io::Result<()> {
    if yes {
        rt.write_all(letter)
    } else {
        rt.write_all(b"-")
    }
}

fn found(rt: &impl Print, r: Option<Parts>, letter: &[u8]) -> io::Result<()> {
    mark(rt, r.is_some(), letter)
}

fn begins(rt: &impl Print, s: &[u8]) -> io::Result<()> {
    if origin::begins_https(s) {
        rt.write_all(b"h")
    } else {
        mark(rt, origin::begins_native(s), b"n")
    }
}

fn named(rt: &impl Print, name: &[u8], s: &[u8]) -> io::Result<()> {
    begins(rt, s)?;
    found(rt, origin::web_origin(s), b"w")?;
    found(rt, origin::https_url(s), b"u")?;
    mark(rt, origin::is_android(s), b"a")?;
    mark(rt, origin::is_ios(s), b"i")?;
    mark(rt, origin::is_facet(s), b"f")?;
    rt.write_all(b" ")?;
    rt.write_all(name)?;
    rt.write_all(b"\n")
}

// The first n bytes of s.
fn first(rt: &impl Print, name: &[u8], s: &[u8], n: usize) -> io::Result<()> {
    named(rt, name, ascii::prefix(s, n))
}

// Each line of s.
fn lines(rt: &impl Print, s: &[u8]) -> io::Result<()> {
    for line in s.split_inclusive(|b| *b == b'\n') {
        let line = line.strip_suffix(b"\n").unwrap_or(line);
        named(rt, line, line)?;
    }
    Ok(())
}

fn input(rt: &(impl Input + Print)) -> io::Result<()> {
    let mut buffer = [0u8; 4096];
    let n = read_full(&mut rt.reader(), &mut buffer)?;
    lines(rt, ascii::prefix(&buffer, n))
}

fn tail_bytes(rt: &impl Print) -> io::Result<()> {
    named(rt, b"0x20 in a tail", b"https://a.b/ ")?;
    named(rt, b"0x21 in a tail", b"https://a.b/!")?;
    named(rt, b"0x22 in a tail", b"https://a.b/\"")?;
    named(rt, b"0x23 in a tail", b"https://a.b/#")?;
    named(rt, b"0x24 in a tail", b"https://a.b/$")?;
    named(rt, b"0x7E in a tail", b"https://a.b/~")?;
    named(rt, b"0x7F in a tail", b"https://a.b/\x7F")?;
    named(rt, b"0x80 in a tail", b"https://a.b/\x80")
}

// Labels of 63, 63, 63 and the rest.
fn long_hosts(rt: &impl Print) -> io::Result<()> {
    let mut s = [b'a'; 4096];
    normal_forms::write_bytes(b"https://", &mut s, 0);
    first(rt, b"label of 63", &s, 71)?;
    first(rt, b"label of 64", &s, 72)?;
    s[71] = b'.';
    s[135] = b'.';
    s[199] = b'.';
    first(rt, b"host of 253", &s, 261)?;
    first(rt, b"host of 254", &s, 262)
}

fn longest_origin(rt: &impl Print) -> io::Result<()> {
    let mut s = [b'a'; 4096];
    normal_forms::write_bytes(b"https://", &mut s, 0);
    s[71] = b'.';
    s[135] = b'.';
    s[199] = b'.';
    normal_forms::write_bytes(b":65535//", &mut s, 261);
    first(rt, b"origin of 268", &s, 268)?;
    first(rt, b"origin of 269", &s, 269)
}

fn long_bundles(rt: &impl Print) -> io::Result<()> {
    let mut s = [b'a'; 4096];
    normal_forms::write_bytes(b"ios:bundle-id:", &mut s, 0);
    first(rt, b"bundle name of 255", &s, 269)?;
    first(rt, b"bundle name of 256", &s, 270)
}

fn long_urls(rt: &impl Print) -> io::Result<()> {
    let mut s = [b'a'; 4096];
    normal_forms::write_bytes(b"https://a.b/", &mut s, 0);
    first(rt, b"URL of 2048", &s, 2048)?;
    first(rt, b"URL of 2049", &s, 2049)
}

fn main(rt: HostRuntime) -> io::Result<()> {
    input(&rt)?;
    tail_bytes(&rt)?;
    long_hosts(&rt)?;
    longest_origin(&rt)?;
    long_bundles(&rt)?;
    long_urls(&rt)?;
    forms::normal_forms(&rt)?;
    forms::rooms(&rt)?;
    forms::ports(&rt)?;
    forms::callers(&rt)?;
    forms::same_hosts(&rt)
}
