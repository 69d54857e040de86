// Runs the fetch location, a part returned from one of two lent slices, on cases of document 01, "Fetch record and decision":
// "returns the last redirect's part of the text, or the AppID where there is none, and an empty part unless the decision is fetch".
#![tactic(auto)]

use fetch_record::FetchRecord;
use std::io;

// The label and the part between brackets.
fn show<'a>(
    rt: &impl Print,
    label: &[u8],
    caller: &[u8],
    appid: &'a [u8],
    items: &[u8],
    text: &'a [u8],
) -> io::Result<()> {
    rt.write_all(label)?;
    rt.write_all(b": [")?;
    let record = FetchRecord { items, text };
    rt.write_all(decision::fetch_location(caller, appid, record))?;
    rt.write_all(b"]\n")
}

// The decision is fetch.
fn fetches(rt: &impl Print, text: &[u8]) -> io::Result<()> {
    let caller = b"https://app.example.com";
    let appid = b"https://www.Example.com/appID";
    show(
        rt,
        b"no redirect: the AppID as given",
        caller,
        appid,
        b"",
        text,
    )?;
    show(
        rt,
        b"one redirect",
        caller,
        appid,
        b"\x01\x01\x2d\x01\x00\x00\x00\x0c",
        text,
    )?;
    show(
        rt,
        b"two redirects: the last",
        caller,
        appid,
        b"\x01\x01\x2d\x01\x00\x00\x00\x0c\x01\x01\x2e\x01\x00\x0c\x00\x0d",
        text,
    )?;
    show(
        rt,
        b"a native caller",
        b"ios:bundle-id:com.acme.app",
        appid,
        b"",
        text,
    )
}

// The record is refused, or has an answer.
fn records(rt: &impl Print, text: &[u8]) -> io::Result<()> {
    let caller = b"https://app.example.com";
    let appid = b"https://www.example.com/appID";
    show(
        rt,
        b"4: past the text's end",
        caller,
        appid,
        b"\x01\x01\x2d\x01\x00\x0c\x00\x0e",
        text,
    )?;
    show(
        rt,
        b"5: header not seen",
        caller,
        appid,
        b"\x01\x01\x2d\x00\x00\x00\x00\x0c",
        text,
    )?;
    show(
        rt,
        b"6: no HTTPS URL",
        caller,
        appid,
        b"\x01\x01\x2d\x01\x00\x01\x00\x0b",
        text,
    )?;
    show(rt, b"an answer", caller, appid, b"\x02\x00\xc8\x01", text)?;
    show(
        rt,
        b"a redirect, then an answer",
        caller,
        appid,
        b"\x01\x01\x2d\x01\x00\x00\x00\x0c\x02\x00\xc8\x01",
        text,
    )
}

// Settled before the record is looked at.
fn settled(rt: &impl Print, text: &[u8]) -> io::Result<()> {
    let caller = b"https://app.example.com";
    show(
        rt,
        b"1: no facet",
        b"app",
        b"https://www.example.com/",
        b"",
        text,
    )?;
    show(rt, b"2: no HTTPS URL", caller, b"https://", b"", text)?;
    show(
        rt,
        b"3: foreign AppID",
        caller,
        b"http://app.example.com",
        b"",
        text,
    )?;
    show(
        rt,
        b"rule 1",
        b"ios:bundle-id:a",
        b"ios:bundle-id:a",
        b"",
        text,
    )?;
    show(rt, b"rule 2", caller, b"", b"", text)?;
    show(
        rt,
        b"rule 3",
        caller,
        b"https://APP.example.com/appID",
        b"",
        text,
    )
}

fn main(rt: HostRuntime) -> io::Result<()> {
    // two Locations: the first 12 bytes and the last 13 of 25
    let t = b"https://a.b/https://c.d?e";
    fetches(&rt, t)?;
    records(&rt, t)?;
    settled(&rt, t)
}
