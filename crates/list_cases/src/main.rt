// Bodies on both sides of each bound of document 01, "The list": what is refused, or the first two selected entries, decoded.
#![tactic(auto)]

use json_text::Decoded;
use std::io;
use trusted_list::Version;

// What is held of an entry; more than 512 bytes are not.
fn write_held(rt: &impl Print, decoded: &Decoded) -> io::Result<()> {
    let Some(bytes) = decoded.held() else {
        return rt.write_all(b" long");
    };
    rt.write_all(b" ")?;
    rt.write_all(bytes)
}

// The entry at a place; returns the place of the next one.
fn write_entry(rt: &impl Print, body: &[u8], at: usize) -> io::Result<Option<usize>> {
    let mut decoded = Decoded::new();
    let Some(j) = decoded.decode_string(body, at) else {
        return Ok(None);
    };
    write_held(rt, &decoded)?;
    Ok(trusted_list::next_entry(body, j))
}

fn write_entries(rt: &impl Print, body: &[u8], ids: usize) -> io::Result<()> {
    let Some(a) = trusted_list::first_entry(body, ids) else {
        return rt.write_all(b" no entry");
    };
    let Some(b) = write_entry(rt, body, a)? else {
        return Ok(());
    };
    let Some(_) = write_entry(rt, body, b)? else {
        return Ok(());
    };
    rt.write_all(b" ..")
}

// For version 1.0.
fn show(rt: &impl Print, label: &[u8], body: &[u8]) -> io::Result<()> {
    rt.write_all(label)?;
    rt.write_all(b":")?;
    match trusted_list::select(body, Version { major: 1, minor: 0 }) {
        Err(x) => {
            rt.write_all(b" refused ")?;
            rt.print(u16::from(x))?;
        }
        Ok(ids) => {
            write_entries(rt, body, ids)?;
        }
    }
    rt.write_all(b"\n")
}

fn shapes(rt: &impl Print) -> io::Result<()> {
    show(
        rt,
        b"the list",
        b"{\"trustedFacets\":[{\"version\":{\"major\":1,\"minor\":0},\"ids\":[\"a\"]}]}",
    )?;
    show(
        rt,
        b"blanks",
        b" \t\r\n{ \"trustedFacets\" : [ { \"version\" : { \"major\" : 1 , \"minor\" : 0 } , \"ids\" : [ \"a\" , \"b\" ] } ] } ",
    )?;
    show(
        rt,
        b"no entry",
        b"{\"trustedFacets\":[{\"version\":{\"major\":1,\"minor\":0},\"ids\":[]}]}",
    )?;
    show(
        rt,
        b"three entries",
        b"{\"trustedFacets\":[{\"version\":{\"major\":1,\"minor\":0},\"ids\":[\"a\",\"b\",\"c\"]}]}",
    )
}

// Bodies that are no object with `trustedFacets` once.
fn bodies(rt: &impl Print) -> io::Result<()> {
    show(rt, b"an array", b"[]")?;
    show(rt, b"a string", b"\"trustedFacets\"")?;
    show(rt, b"no trustedFacets", b"{}")?;
    show(
        rt,
        b"trustedFacets twice",
        b"{\"trustedFacets\":[{\"version\":{\"major\":1,\"minor\":0},\"ids\":[\"a\"]}],\"trustedFacets\":[{\"version\":{\"major\":1,\"minor\":0},\"ids\":[\"a\"]}]}",
    )?;
    show(
        rt,
        b"trustedFacets twice, once escaped",
        b"{\"trustedFacets\":[{\"version\":{\"major\":1,\"minor\":0},\"ids\":[\"a\"]}],\"trusted\\u0046acets\":[{\"version\":{\"major\":1,\"minor\":0},\"ids\":[\"a\"]}]}",
    )?;
    show(
        rt,
        b"trustedFacets escaped",
        b"{\"trusted\\u0046acets\":[{\"version\":{\"major\":1,\"minor\":0},\"ids\":[\"a\"]}]}",
    )?;
    show(
        rt,
        b"trustedFacets in another case",
        b"{\"trustedfacets\":[{\"version\":{\"major\":1,\"minor\":0},\"ids\":[\"a\"]}]}",
    )
}

// Lists that are no array of objects with `version` and `ids` once each.
fn objects(rt: &impl Print) -> io::Result<()> {
    show(
        rt,
        b"an object for the array",
        b"{\"trustedFacets\":{\"version\":{\"major\":1,\"minor\":0},\"ids\":[\"a\"]}}",
    )?;
    show(
        rt,
        b"a number among the objects",
        b"{\"trustedFacets\":[{\"version\":{\"major\":1,\"minor\":0},\"ids\":[\"a\"]},1]}",
    )?;
    show(rt, b"no object", b"{\"trustedFacets\":[]}")?;
    show(
        rt,
        b"no version",
        b"{\"trustedFacets\":[{\"ids\":[\"a\"]}]}",
    )?;
    show(
        rt,
        b"version twice",
        b"{\"trustedFacets\":[{\"version\":{\"major\":1,\"minor\":0},\"version\":{\"major\":1,\"minor\":0},\"ids\":[\"a\"]}]}",
    )?;
    show(
        rt,
        b"no ids",
        b"{\"trustedFacets\":[{\"version\":{\"major\":1,\"minor\":0}}]}",
    )?;
    show(
        rt,
        b"ids twice",
        b"{\"trustedFacets\":[{\"version\":{\"major\":1,\"minor\":0},\"ids\":[\"a\"],\"ids\":[\"a\"]}]}",
    )?;
    show(
        rt,
        b"an id that is null",
        b"{\"trustedFacets\":[{\"version\":{\"major\":1,\"minor\":0},\"ids\":[\"a\",null]}]}",
    )
}

// Members that are missing, twice, or others.
fn members(rt: &impl Print) -> io::Result<()> {
    show(
        rt,
        b"an object without ids behind the selected one",
        b"{\"trustedFacets\":[{\"version\":{\"major\":1,\"minor\":0},\"ids\":[\"a\"]},{\"version\":{\"major\":1,\"minor\":0}}]}",
    )?;
    show(
        rt,
        b"no major",
        b"{\"trustedFacets\":[{\"version\":{\"minor\":0},\"ids\":[\"a\"]}]}",
    )?;
    show(
        rt,
        b"minor twice",
        b"{\"trustedFacets\":[{\"version\":{\"major\":1,\"minor\":0,\"minor\":0},\"ids\":[\"a\"]}]}",
    )?;
    show(
        rt,
        b"other members, and one twice",
        b"{\"y\":{\"ids\":1},\"y\":[],\"trustedFacets\":[{\"z\":null,\"version\":{\"major\":1,\"minor\":0},\"ids\":[\"a\"],\"z\":[{}]}]}",
    )
}

fn numbers(rt: &impl Print) -> io::Result<()> {
    show(
        rt,
        b"major 1.0",
        b"{\"trustedFacets\":[{\"version\":{\"major\":1.0,\"minor\":0},\"ids\":[\"a\"]}]}",
    )?;
    show(
        rt,
        b"major 1e0",
        b"{\"trustedFacets\":[{\"version\":{\"major\":1e0,\"minor\":0},\"ids\":[\"a\"]}]}",
    )?;
    show(
        rt,
        b"major -0",
        b"{\"trustedFacets\":[{\"version\":{\"major\":-0,\"minor\":0},\"ids\":[\"a\"]}]}",
    )?;
    show(
        rt,
        b"major 01",
        b"{\"trustedFacets\":[{\"version\":{\"major\":01,\"minor\":0},\"ids\":[\"a\"]}]}",
    )?;
    show(
        rt,
        b"major \"1\"",
        b"{\"trustedFacets\":[{\"version\":{\"major\":\"1\",\"minor\":0},\"ids\":[\"a\"]}]}",
    )?;
    show(
        rt,
        b"minor 65535",
        b"{\"trustedFacets\":[{\"version\":{\"major\":1,\"minor\":65535},\"ids\":[\"a\"]}]}",
    )?;
    show(
        rt,
        b"minor 65536",
        b"{\"trustedFacets\":[{\"version\":{\"major\":1,\"minor\":65536},\"ids\":[\"a\"]}]}",
    )?;
    show(
        rt,
        b"minor 0",
        b"{\"trustedFacets\":[{\"version\":{\"major\":1,\"minor\":0},\"ids\":[\"a\"]}]}",
    )
}

fn selections(rt: &impl Print) -> io::Result<()> {
    show(
        rt,
        b"the first of two",
        b"{\"trustedFacets\":[{\"version\":{\"major\":1,\"minor\":0},\"ids\":[\"a\"]},{\"version\":{\"major\":1,\"minor\":0},\"ids\":[\"b\"]}]}",
    )?;
    show(
        rt,
        b"the second, of the wanted version",
        b"{\"trustedFacets\":[{\"version\":{\"major\":1,\"minor\":1},\"ids\":[\"b\"]},{\"version\":{\"major\":1,\"minor\":0},\"ids\":[\"a\"]}]}",
    )?;
    show(
        rt,
        b"minor and major changed",
        b"{\"trustedFacets\":[{\"version\":{\"major\":0,\"minor\":1},\"ids\":[\"a\"]}]}",
    )?;
    show(
        rt,
        b"another version",
        b"{\"trustedFacets\":[{\"version\":{\"major\":2,\"minor\":0},\"ids\":[\"a\"]}]}",
    )
}

fn readings(rt: &impl Print) -> io::Result<()> {
    show(rt, b"nothing", b"")?;
    show(
        rt,
        b"cut",
        b"{\"trustedFacets\":[{\"version\":{\"major\":1,\"minor\":0},\"ids\":[\"a\"]}]",
    )?;
    show(
        rt,
        b"bytes behind",
        b"{\"trustedFacets\":[{\"version\":{\"major\":1,\"minor\":0},\"ids\":[\"a\"]}]}x",
    )?;
    show(
        rt,
        b"a comma too many",
        b"{\"trustedFacets\":[{\"version\":{\"major\":1,\"minor\":0},\"ids\":[\"a\",]}]}",
    )?;
    show(
        rt,
        b"a raw control byte",
        b"{\"trustedFacets\":[{\"version\":{\"major\":1,\"minor\":0},\"ids\":[\"\x1f\"]}]}",
    )?;
    show(
        rt,
        b"the byte 7F",
        b"{\"trustedFacets\":[{\"version\":{\"major\":1,\"minor\":0},\"ids\":[\"\x7f\"]}]}",
    )
}

fn escapes(rt: &impl Print) -> io::Result<()> {
    show(
        rt,
        b"an unpaired surrogate",
        b"{\"trustedFacets\":[{\"version\":{\"major\":1,\"minor\":0},\"ids\":[\"\\ud800\"]}]}",
    )?;
    show(
        rt,
        b"a pair of surrogates",
        b"{\"trustedFacets\":[{\"version\":{\"major\":1,\"minor\":0},\"ids\":[\"\\ud83d\\ude00\"]}]}",
    )?;
    show(
        rt,
        b"the eight short escapes",
        b"{\"trustedFacets\":[{\"version\":{\"major\":1,\"minor\":0},\"ids\":[\"\\\"\\\\\\/\\b\\f\\n\\r\\t\"]}]}",
    )?;
    show(
        rt,
        b"an escape of another letter",
        b"{\"trustedFacets\":[{\"version\":{\"major\":1,\"minor\":0},\"ids\":[\"\\a\"]}]}",
    )?;
    show(
        rt,
        b"bad UTF-8",
        b"{\"trustedFacets\":[{\"version\":{\"major\":1,\"minor\":0},\"ids\":[\"\xc3\"]}]}",
    )
}

fn nestings(rt: &impl Print) -> io::Result<()> {
    show(
        rt,
        b"16 deep in a skipped member",
        b"{\"x\":[[[[[[[[[[[[[[[]]]]]]]]]]]]]]],\"trustedFacets\":[{\"version\":{\"major\":1,\"minor\":0},\"ids\":[\"a\"]}]}",
    )?;
    show(
        rt,
        b"17 deep in a skipped member",
        b"{\"x\":[[[[[[[[[[[[[[[[]]]]]]]]]]]]]]]],\"trustedFacets\":[{\"version\":{\"major\":1,\"minor\":0},\"ids\":[\"a\"]}]}",
    )?;
    show(
        rt,
        b"11 before 12, 10 before 11",
        b"{\"trustedFacets\":[1]}]",
    )
}

fn main(rt: HostRuntime) -> io::Result<()> {
    shapes(&rt)?;
    bodies(&rt)?;
    objects(&rt)?;
    members(&rt)?;
    numbers(&rt)?;
    selections(&rt)?;
    readings(&rt)?;
    escapes(&rt)?;
    nestings(&rt)
}
