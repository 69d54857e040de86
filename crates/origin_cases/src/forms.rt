// Normal forms, and which caller matches what.
use normal_forms::Writer;
use std::io;

// A text and its normal form.
fn form(rt: &impl Print, s: &[u8]) -> io::Result<()> {
    let mut out = [0u8; 64];
    rt.write_all(s)?;
    rt.write_all(b" = ")?;
    let mut to = Writer {
        out: &mut out,
        at: 0,
    };
    to.write_normal(s);
    let n = to.at;
    rt.write_all(ascii::prefix(&out, n))?;
    rt.write_all(b"\n")
}

pub fn normal_forms(rt: &impl Print) -> io::Result<()> {
    form(rt, b"https://a.b")?;
    form(rt, b"hTTps://A-Z.b/")?;
    form(rt, b"https://a.b:443")?;
    form(rt, b"https://a.b:443/")?;
    form(rt, b"https://a.b:444/")?;
    form(rt, b"https://a.b:4430")?;
    form(rt, b"https://A.B:1/")?;
    form(rt, b"ios:bundle-id:Com.Acme.App")?;
    form(rt, b"android:apk-key-hash:+/+ABCDEFGHIJKLMNOPQRSTUVWX")
}

// Eleven bytes at a place of twelve: the twelve afterwards, and the place behind.
fn room(rt: &impl Print, at: usize) -> io::Result<()> {
    let mut out = [b'.'; 12];
    let mut to = Writer { out: &mut out, at };
    to.write_normal(b"https://A.B/");
    let n = to.at;
    rt.write_all(&out)?;
    println!(rt; " {n}")
}

pub fn rooms(rt: &impl Print) -> io::Result<()> {
    room(rt, 0)?;
    room(rt, 1)?;
    room(rt, 2)?;
    room(rt, 18446744073709551615)
}

fn says(rt: &impl Print, yes: bool, a: &[u8], b: &[u8]) -> io::Result<()> {
    if yes {
        rt.write_all(b"yes ")?;
    } else {
        rt.write_all(b"no ")?;
    }
    rt.write_all(a)?;
    rt.write_all(b" ")?;
    rt.write_all(b)?;
    rt.write_all(b"\n")
}

fn pair(rt: &impl Print, caller: &[u8], entry: &[u8]) -> io::Result<()> {
    says(rt, matching::matches(caller, entry), caller, entry)
}

pub fn ports(rt: &impl Print) -> io::Result<()> {
    pair(rt, b"https://a.b", b"https://a.b:443/")?;
    pair(rt, b"https://a.b:443", b"https://a.b")?;
    pair(rt, b"https://a.b:443", b"https://a.b:443")?;
    pair(rt, b"https://a.b:99/", b"HTTPS://A.B:99")?;
    pair(rt, b"https://a.b", b"https://a.b:99")?;
    pair(rt, b"https://a.b:99", b"https://a.b")?;
    pair(rt, b"https://a.b:99", b"https://a.b:98")?;
    pair(rt, b"https://a.b:99", b"https://a.b:999")?;
    pair(rt, b"https://a.b:699", b"https://a.b:443")?;
    pair(rt, b"https://a.b:65535", b"https://a.b:65535")
}

pub fn callers(rt: &impl Print) -> io::Result<()> {
    pair(rt, b"https://a.b", b"HTTPS://A.B/")?;
    pair(rt, b"https://a.b:99", b"https://a.c:99")?;
    pair(rt, b"https://a.b", b"https://a.c")?;
    pair(rt, b"https://b", b"https://a.b")?;
    pair(rt, b"https://a.b", b"https://a.b/p")?;
    pair(rt, b"https://a.b", b"ios:bundle-id:a.b")?;
    pair(rt, b"ios:bundle-id:a", b"ios:bundle-id:a")?;
    pair(rt, b"ios:bundle-id:a", b"ios:bundle-id:A")?;
    pair(rt, b"ios:bundle-id:a", b"https://a")
}

fn target(rt: &impl Print, caller: &[u8], appid: &[u8]) -> io::Result<()> {
    says(rt, matching::same_host(caller, appid), caller, appid)
}

pub fn same_hosts(rt: &impl Print) -> io::Result<()> {
    target(rt, b"https://a.b:1", b"https://A.B:2/p?q")?;
    target(rt, b"https://a.b", b"https://a.b/p#f")?;
    target(rt, b"https://a.b", b"https://a.c/")?;
    target(rt, b"https://a.b/", b"https://a.b//")?;
    target(rt, b"https://a.b//", b"https://a.b/")?;
    target(rt, b"ios:bundle-id:a", b"https://a")
}
