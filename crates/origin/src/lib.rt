// Identifiers: web origins, native identities, facets, HTTPS URLs.
#![tactic(auto)]

ghost use Rattle.std.specs.Prelude.{◌≡◌, ◌+◌, ◌≤◌, length, drop, Some};
ghost use Rattle.ascii.specs.Ascii.{take_while};
ghost use Rattle.origin.specs.Origin.{begins_https, begins_native, is_host_byte, read_port, read_host, read_https, web_origin, is_key_hash_byte, is_android, is_ios, is_native, is_facet, is_tail_byte, is_tail, https_url};
ghost use Rattle.origin.specs.code.Parts.{part, is_end, begins_tail, port_of, without_port, HostEnd, Reads};

use ascii::classes::Classes;

// Where the parts of a text that begins `https://` stand: the host from 8 to end, then the port, then what is
// left from tail on. The port is its number, 443 where it is absent.
#[derive(Clone, Copy)]
pub struct Parts {
    pub end: usize,
    pub port: u16,
    pub tail: usize,
}

pub fn begins_https(s: &[u8]) -> bool
    ensures { result ≡ begins_https s.now }
{
    ascii::begins_with_no_case(s, b"https://")
}

// One of the two native prefixes, which are lower case.
pub fn begins_native(s: &[u8]) -> bool
    ensures { result ≡ begins_native s.now }
{
    if ascii::begins_with(s, b"android:apk-key-hash:") {
        return true;
    }
    ascii::begins_with(s, b"ios:bundle-id:")
}

// A letter, digit, hyphen or dot. The classes are lent, here and below.
fn is_host_byte(classes: &Classes, b: u8) -> bool
    ensures { result ≡ is_host_byte b }
{
    // 0 letters, 1 digits, 2 the hyphen, 3 the dot
    classes.class_of(b) < 4
}

// 1 to 65535 without leading zero.
fn port_number(p: &[u8]) -> Option<u16>
    ensures { result ≡ port_of p.now }
{
    if ascii::begins_with(p, b"0") {
        return None; // a leading zero
    }
    ascii::decimals::read_number(p)
}

// Behind the host: `:` and a port, or no port. That a host ends at a place is asked here, of the calls behind it and in `matching`, which
// says why it is no type.
fn read_port(s: &[u8], end: usize) -> Option<Parts>
    requires { HostEnd s.now end }
    ensures { Reads s.now (read_port (part s.now 8 end) (drop end s.now)) result }
{
    if s.len() <= end {
        return no_port(s, end);
    }
    if s[end] != b':' {
        return no_port(s, end);
    }
    let from = end + 1;
    let tail = ascii::run_end(s, from, ascii::is_digit);
    let port = port_number(&s[from..tail])?;
    Some(Parts { end, port, tail })
}

fn no_port(s: &[u8], end: usize) -> Option<Parts>
    requires { HostEnd s.now end }
    ensures { Reads s.now (Some (without_port s.now end)) result }
{
    Some(Parts {
        end,
        port: 443,
        tail: end,
    })
}

// Where the letters, digits, hyphens and dots from a place on end.
fn host_stop(s: &[u8], from: usize) -> usize
    ensures { result ≡ from + length (take_while is_host_byte (drop from s.now)) }
{
    let classes = Classes::new();
    ascii::run_end(s, from, |b| is_host_byte(&classes, b))
}

// Behind `https://`: a host, then the port.
fn read_host(s: &[u8]) -> Option<Parts>
    requires { 8 ≤ length s.now }
    ensures { Reads s.now (read_host (drop 8 s.now)) result }
{
    let end = host_stop(s, 8);
    if hosts::is_host(&s[8..end]) {
        read_port(s, end)
    } else {
        None
    }
}

fn read_https(s: &[u8]) -> Option<Parts>
    ensures { Reads s.now (read_https s.now) result }
{
    if begins_https(s) { read_host(s) } else { None }
}

// Nothing, or one final `/`.
fn is_end(t: &[u8]) -> bool
    ensures { result ≡ is_end t.now }
{
    if t.is_empty() {
        return true;
    }
    ascii::equal(t, b"/")
}

// `https://`, a host, optionally a port, optionally one final `/`.
pub fn web_origin(s: &[u8]) -> Option<Parts>
    ensures { Reads s.now (web_origin s.now) result }
{
    let p = read_https(s)?;
    let tail = p.tail;
    if is_end(&s[tail..]) { Some(p) } else { None }
}

// 0x21 to 0x7E without `#`.
fn is_tail_byte(b: u8) -> bool
    ensures { result ≡ is_tail_byte b }
{
    if b < 0x21 {
        return false;
    }
    if 0x7E < b {
        return false;
    }
    b != b'#'
}

// The tail begins with `/` or `?`.
fn begins_tail(t: &[u8]) -> bool
    ensures { result ≡ begins_tail t.now }
{
    if ascii::begins_with(t, b"/") {
        return true;
    }
    ascii::begins_with(t, b"?")
}

// Nothing, or a tail beginning with `/` or `?`.
fn is_tail(t: &[u8]) -> bool
    ensures { result ≡ is_tail t.now }
{
    if t.is_empty() {
        return true;
    }
    if begins_tail(t) {
        ascii::run_end(t, 0, is_tail_byte) == t.len()
    } else {
        false
    }
}

// `https://`, a host, optionally a port, and a tail, in at most 2,048 bytes.
pub fn https_url(s: &[u8]) -> Option<Parts>
    ensures { Reads s.now (https_url s.now) result }
{
    if 2048 < s.len() {
        return None;
    }
    let p = read_https(s)?;
    let tail = p.tail;
    if is_tail(&s[tail..]) { Some(p) } else { None }
}

// A–Z a–z 0–9 + /
fn is_key_hash_byte(classes: &Classes, b: u8) -> bool
    ensures { result ≡ is_key_hash_byte b }
{
    // a letter or a digit
    if classes.class_of(b) < 2 {
        return true;
    }
    if b == b'+' {
        return true;
    }
    b == b'/'
}

// Exactly 27 characters behind the prefix of 21: 48 bytes. Beside `is_ios`: length, prefix and test of each stand together, as in document
// 01; a function of both would take all of these.
pub fn is_android(s: &[u8]) -> bool
    ensures { result ≡ is_android s.now }
{
    if s.len() != 48 {
        return false;
    }
    if ascii::begins_with(s, b"android:apk-key-hash:") {
        let classes = Classes::new();
        ascii::run_end(s, 21, |b| is_key_hash_byte(&classes, b)) == s.len()
    } else {
        false
    }
}

// 1 to 255 letters, digits, hyphens or dots behind the prefix of 14: 15 to 269 bytes.
pub fn is_ios(s: &[u8]) -> bool
    ensures { result ≡ is_ios s.now }
{
    if s.len() < 15 {
        return false;
    }
    if 269 < s.len() {
        return false;
    }
    if ascii::begins_with(s, b"ios:bundle-id:") {
        host_stop(s, 14) == s.len()
    } else {
        false
    }
}

pub fn is_native(s: &[u8]) -> bool
    ensures { result ≡ is_native s.now }
{
    if is_android(s) {
        return true;
    }
    is_ios(s)
}

// A web origin or a native identity, in at most 512 bytes.
pub fn is_facet(s: &[u8]) -> bool
    ensures { result ≡ is_facet s.now }
{
    if 512 < s.len() {
        return false;
    }
    if web_origin(s).is_some() {
        return true;
    }
    is_native(s)
}
