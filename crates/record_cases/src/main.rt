// Runs records on both sides of each bound of document 01, "Fetch record and decision", and writes what each settles.
#![tactic(auto)]

use fetch_record::FetchRecord;
use std::io;

// 9 redirects, the last one to the second Location, then an answer.
fn nine() -> [u8; 76] {
    *b"\x01\x01\x2c\x01\x00\x00\x00\x0c\x01\x01\x2c\x01\x00\x00\x00\x0c\x01\x01\x2c\x01\x00\x00\x00\x0c\x01\x01\x2c\x01\x00\x00\x00\x0c\x01\x01\x2c\x01\x00\x00\x00\x0c\x01\x01\x2c\x01\x00\x00\x00\x0c\x01\x01\x2c\x01\x00\x00\x00\x0c\x01\x01\x2c\x01\x00\x00\x00\x0c\x01\x01\x2c\x01\x00\x0c\x00\x0d\x02\x00\xc8\x01"
}

// The part of the text that is to be fetched.
fn write_target(rt: &impl Print, record: FetchRecord) -> io::Result<()> {
    if let Some(span) = record.last_location() {
        rt.write_all(b" ")?;
        rt.write_all(span.of(record.text))?;
    }
    Ok(())
}

fn show(rt: &impl Print, label: &[u8], items: &[u8], text: &[u8]) -> io::Result<()> {
    let record = FetchRecord { items, text };
    rt.write_all(label)?;
    match record.fetching() {
        Err(r) => {
            rt.write_all(b": refused ")?;
            rt.print(u16::from(r))?;
        }
        Ok(None) => {
            rt.write_all(b": fetch")?;
            write_target(rt, record)?;
        }
        Ok(Some(a)) => {
            rt.write_all(b": answer ")?;
            rt.print(a.status)?;
            if a.type_seen {
                rt.write_all(b" right type")?;
            } else {
                rt.write_all(b" wrong type")?;
            }
        }
    }
    rt.write_all(b"\n")
}

fn redirects(rt: &impl Print, text: &[u8]) -> io::Result<()> {
    show(rt, b"empty record", b"", text)?;
    show(rt, b"status 299", b"\x01\x01\x2b\x01\x00\x00\x00\x0c", text)?;
    show(rt, b"status 300", b"\x01\x01\x2c\x01\x00\x00\x00\x0c", text)?;
    show(rt, b"status 399", b"\x01\x01\x8f\x01\x00\x00\x00\x0c", text)?;
    show(rt, b"status 400", b"\x01\x01\x90\x01\x00\x00\x00\x0c", text)?;
    show(rt, b"header 0", b"\x01\x01\x2c\x00\x00\x00\x00\x0c", text)?;
    show(rt, b"header 1", b"\x01\x01\x2c\x01\x00\x00\x00\x0c", text)?;
    show(rt, b"header 2", b"\x01\x01\x2c\x02\x00\x00\x00\x0c", text)?;
    show(
        rt,
        b"redirect cut by a byte",
        b"\x01\x01\x2c\x01\x00\x00\x00",
        text,
    )?;
    show(
        rt,
        b"redirect and a byte",
        b"\x01\x01\x2c\x01\x00\x00\x00\x0c\x00",
        text,
    )?;
    show(rt, b"kind 0", b"\x00\x01\x2c\x01\x00\x00\x00\x0c", text)?;
    show(rt, b"kind 3", b"\x03\x01\x2c\x01\x00\x00\x00\x0c", text)?;
    show(rt, b"kind 255", b"\xff\x01\x2c\x01\x00\x00\x00\x0c", text)
}

fn locations(rt: &impl Print, text: &[u8]) -> io::Result<()> {
    show(
        rt,
        b"up to the text's end",
        b"\x01\x01\x2c\x01\x00\x0c\x00\x0d",
        text,
    )?;
    show(
        rt,
        b"a byte past the end",
        b"\x01\x01\x2c\x01\x00\x0c\x00\x0e",
        text,
    )?;
    show(
        rt,
        b"start at the end, length 0",
        b"\x01\x01\x2c\x01\x00\x19\x00\x00",
        text,
    )?;
    show(
        rt,
        b"the same, header 0",
        b"\x01\x01\x2c\x00\x00\x19\x00\x00",
        text,
    )?;
    show(
        rt,
        b"start past the end, length 0",
        b"\x01\x01\x2c\x01\x00\x1a\x00\x00",
        text,
    )?;
    show(
        rt,
        b"start and length 65535",
        b"\x01\x01\x2c\x01\xff\xff\xff\xff",
        text,
    )?;
    show(
        rt,
        b"no HTTPS URL",
        b"\x01\x01\x2c\x01\x00\x01\x00\x0b",
        text,
    )
}

fn answers(rt: &impl Print, text: &[u8]) -> io::Result<()> {
    show(rt, b"answer", b"\x02\x00\xc8\x01", text)?;
    show(rt, b"answer, type 0", b"\x02\x00\xc8\x00", text)?;
    show(rt, b"answer, type 2", b"\x02\x00\xc8\x02", text)?;
    show(rt, b"answer of status 302", b"\x02\x01\x2e\x01", text)?;
    show(rt, b"answer of status 65535", b"\x02\xff\xff\x01", text)?;
    show(rt, b"answer of 2 bytes", b"\x02\x00\xc8", text)?;
    show(rt, b"answer of 4 bytes", b"\x02\x00\xc8\x01\x00", text)?;
    show(
        rt,
        b"two answers",
        b"\x02\x00\xc8\x01\x02\x00\xc8\x01",
        text,
    )?;
    show(
        rt,
        b"answer, then redirect",
        b"\x02\x00\xc8\x01\x01\x01\x2c\x01\x00\x00\x00\x0c",
        text,
    )?;
    show(
        rt,
        b"redirect, then answer",
        b"\x01\x01\x2c\x01\x00\x00\x00\x0c\x02\x00\xc8\x01",
        text,
    )?;
    show(
        rt,
        b"open redirect, then answer",
        b"\x01\x01\x2c\x00\x00\x00\x00\x0c\x02\x00\xc8\x01",
        text,
    )
}

fn hops(rt: &impl Print, text: &[u8]) -> io::Result<()> {
    show(
        rt,
        b"two redirects",
        b"\x01\x01\x2c\x01\x00\x00\x00\x0c\x01\x01\x2c\x01\x00\x0c\x00\x0d",
        text,
    )?;
    show(
        rt,
        b"5, then 6",
        b"\x01\x01\x2c\x00\x00\x00\x00\x0c\x01\x01\x2c\x01\x00\x01\x00\x0b",
        text,
    )?;
    show(
        rt,
        b"6, then 5",
        b"\x01\x01\x2c\x01\x00\x01\x00\x0b\x01\x01\x2c\x00\x00\x00\x00\x0c",
        text,
    )?;
    show(
        rt,
        b"5 and 6 in one",
        b"\x01\x01\x2c\x00\x00\x01\x00\x0b",
        text,
    )?;
    show(
        rt,
        b"5, then a bad status",
        b"\x01\x01\x2c\x00\x00\x00\x00\x0c\x01\x01\x90\x01\x00\x00\x00\x0c",
        text,
    )?;
    show(
        rt,
        b"6, then past the end",
        b"\x01\x01\x2c\x01\x00\x01\x00\x0b\x01\x01\x2c\x01\x00\x0c\x00\x0e",
        text,
    )?;
    show(
        rt,
        b"5, then an answer cut",
        b"\x01\x01\x2c\x00\x00\x00\x00\x0c\x02\x00\xc8",
        text,
    )
}

fn most(rt: &impl Print, text: &[u8]) -> io::Result<()> {
    let nine = nine();
    show(rt, b"8 redirects", &nine[8..72], text)?;
    show(rt, b"9 redirects", &nine[0..72], text)?;
    show(rt, b"8 redirects, then answer", &nine[8..76], text)?;
    show(rt, b"9 redirects, then answer", &nine, text)
}

fn main(rt: HostRuntime) -> io::Result<()> {
    // two Locations: the first 12 bytes and the last 13 of 25
    let t = b"https://a.b/https://c.d?e";
    redirects(&rt, t)?;
    locations(&rt, t)?;
    answers(&rt, t)?;
    hops(&rt, t)?;
    most(&rt, t)
}
