// Callers matched with the AppID (rule 3) and with an entry (rule 4).
#![tactic(auto)]

ghost use Rattle.std.specs.Prelude.{◌≡◌, drop};
ghost use Rattle.ascii.specs.Ascii.{same_no_case};
ghost use Rattle.origin.specs.Origin.{web_origin, https_url};
ghost use Rattle.origin.specs.code.Parts.{part, HostEnd, Inside};
ghost use Rattle.matching.specs.Matching.{same_host, facet_matches};
ghost use Rattle.matching.specs.code.AtPlaces.{same_at};
ghost use Rattle.matching.specs.code.Unlike.{is_stop, may_end, apart, unlike};

use origin::Parts;

// The hosts of x and y, which end at a and b, are equal without regard to case. That a host ends at a place is asked in three private
// contracts of two crates: a type of text and place would be made and taken apart at each of the calls.
fn equal_hosts(x: &[u8], a: usize, y: &[u8], b: usize) -> bool
    requires { HostEnd x.now a × HostEnd y.now b }
    ensures { result ≡ same_no_case (part x.now 8 a) (part y.now 8 b) }
{
    ascii::equal_no_case(&x[8..a], &y[8..b])
}

// A web caller's host is the AppID's, ports aside.
pub fn same_host(caller: &[u8], appid: &[u8]) -> bool
    ensures { result ≡ same_host (web_origin caller.now) (https_url appid.now) }
{
    let Some(p) = origin::web_origin(caller) else {
        return false;
    };
    let Some(q) = origin::https_url(appid) else {
        return false;
    };
    equal_hosts(caller, p.end, appid, q.end)
}

// Hosts and ports of two texts with these parts are equal.
fn same_origin(x: &[u8], p: Parts, y: &[u8], q: Parts) -> bool
    requires { Inside x.now p × Inside y.now q }
    ensures { result ≡ same_at x.now p y.now q }
{
    if p.port == q.port {
        return equal_hosts(x, p.end, y, q.end);
    }
    false
}

// What may follow a host: `:` or `/`.
fn is_stop(b: u8) -> bool
    ensures { result ≡ is_stop b }
{
    if b == b':' {
        return true;
    }
    b == b'/'
}

// A host may end at the place.
fn may_end(s: &[u8], at: usize) -> bool
    ensures { result ≡ may_end (drop at s.now) }
{
    if at < s.len() {
        return is_stop(s[at]);
    }
    true
}

fn are_apart(x: &[u8], y: &[u8], at: usize) -> bool
    ensures { result ≡ apart (drop at x.now) (drop at y.now) }
{
    if may_end(x, at) {
        return !may_end(y, at);
    }
    true
}

// Two identifiers differ before their hosts end: they do not match, and need not be read. A host begins at 8, behind `https://`.
fn are_unlike(x: &[u8], y: &[u8]) -> bool
    ensures { result ≡ unlike (drop 8 x.now) (drop 8 y.now) }
{
    let p = ascii::part(x, 8, x.len());
    let q = ascii::part(y, 8, y.len());
    let end = p.len().min(q.len());
    let at = p
        .iter()
        .zip(q)
        .position(|(b, c)| is_stop(*b) || !ascii::alike(*b, *c));
    are_apart(p, q, at.unwrap_or(end))
}

// A native caller equals the entry in bytes, a web caller by host and port.
pub fn matches(caller: &[u8], entry: &[u8]) -> bool
    ensures { result ≡ facet_matches caller.now entry.now }
{
    if are_unlike(caller, entry) {
        return false;
    }
    let Some(p) = origin::web_origin(caller) else {
        return ascii::equal(caller, entry);
    };
    let Some(q) = origin::web_origin(entry) else {
        return false;
    };
    same_origin(caller, p, entry, q)
}
