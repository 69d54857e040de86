// Response heads on both sides of each bound of document 02, S-2: what is refused, or the bytes of the item and the Location that are written.
#![tactic(auto)]

ghost use Rattle.std.specs.Prelude.{◌≤◌};

use std::io;

fn write_number(rt: &impl Print, b: u8) -> io::Result<()> {
    rt.write_all(b" ")?;
    rt.print(b)
}

fn write_numbers(rt: &impl Print, bytes: &[u8]) -> io::Result<()> {
    for b in bytes {
        write_number(rt, *b)?;
    }
    Ok(())
}

fn show_into(
    rt: &impl Print,
    label: &[u8],
    head: &[u8],
    start: u32,
    item: &mut [u8],
    text: &mut [u8],
) -> io::Result<()> {
    rt.write_all(label)?;
    rt.write_all(b":")?;
    match head_items::head_item(head, start, item, text) {
        Err(x) => {
            rt.write_all(b" refused ")?;
            rt.print(u16::from(x))?;
        }
        Ok(written) => {
            write_numbers(rt, ascii::prefix(item, written.item))?;
            rt.write_all(b" ")?;
            rt.write_all(ascii::prefix(text, written.text))?;
        }
    }
    rt.write_all(b"\n")
}

// Into an item of 8 bytes and a text of 40, with the start 3.
fn show(rt: &impl Print, label: &[u8], head: &[u8]) -> io::Result<()> {
    let mut item = [0u8; 8];
    let mut text = [0u8; 40];
    show_into(rt, label, head, 3, &mut item, &mut text)
}

// Into outputs of these lengths.
fn show_short(
    rt: &impl Print,
    label: &[u8],
    head: &[u8],
    start: u32,
    n: usize,
    m: usize,
) -> io::Result<()>
    requires { (n ≤ 8) × (m ≤ 40) }
{
    let mut item = [0u8; 8];
    let mut text = [0u8; 40];
    show_into(rt, label, head, start, &mut item[0..n], &mut text[0..m])
}

fn redirects(rt: &impl Print) -> io::Result<()> {
    show(
        rt,
        b"redirect",
        b"HTTP/1.1 302 Found\r\nLocation: https://a.example/b\r\nFIDO-AppID-Redirect-Authorized: true\r\n\r\n",
    )?;
    show(rt, b"status 299", b"HTTP/1.1 299 x\r\nLocation: l\r\n\r\n")?;
    show(rt, b"status 300", b"HTTP/1.1 300 x\r\nLocation: l\r\n\r\n")?;
    show(rt, b"status 399", b"HTTP/1.1 399 x\r\nLocation: l\r\n\r\n")?;
    show(rt, b"status 400", b"HTTP/1.1 400 x\r\nLocation: l\r\n\r\n")?;
    show(
        rt,
        b"no Location",
        b"HTTP/1.1 302 Found\r\nFIDO-AppID-Redirect-Authorized: true\r\n\r\n",
    )?;
    show(
        rt,
        b"empty Location",
        b"HTTP/1.1 302 Found\r\nLocation:\r\n\r\n",
    )?;
    show(
        rt,
        b"two Locations",
        b"HTTP/1.1 302 Found\r\nLocation: a\r\nLocation: b\r\n\r\n",
    )?;
    show(
        rt,
        b"two equal Locations",
        b"HTTP/1.1 302 Found\r\nLocation: a\r\nLOCATION: a\r\n\r\n",
    )?;
    show(
        rt,
        b"blanks around a Location",
        b"HTTP/1.1 302 Found\r\nLocation: \t a b\t \r\n\r\n",
    )?;
    show(
        rt,
        b"Locations of an answer",
        b"HTTP/1.1 200 OK\r\nLocation: a\r\nLocation: b\r\n\r\n",
    )
}

fn authorized(rt: &impl Print) -> io::Result<()> {
    show(
        rt,
        b"another case of the name",
        b"HTTP/1.1 302 Found\r\nLocation: l\r\nfido-appid-redirect-authorized: true\r\n\r\n",
    )?;
    show(
        rt,
        b"another case of the value",
        b"HTTP/1.1 302 Found\r\nLocation: l\r\nFIDO-AppID-Redirect-Authorized: True\r\n\r\n",
    )?;
    show(
        rt,
        b"true, then false",
        b"HTTP/1.1 302 Found\r\nFIDO-AppID-Redirect-Authorized: true\r\nLocation: l\r\nFIDO-AppID-Redirect-Authorized: false\r\n\r\n",
    )?;
    show(
        rt,
        b"false, then true",
        b"HTTP/1.1 302 Found\r\nFIDO-AppID-Redirect-Authorized: false\r\nFIDO-AppID-Redirect-Authorized: true\r\nLocation: l\r\n\r\n",
    )?;
    show(
        rt,
        b"empty, then true",
        b"HTTP/1.1 302 Found\r\nFIDO-AppID-Redirect-Authorized:\r\nFIDO-AppID-Redirect-Authorized: true\r\nLocation: l\r\n\r\n",
    )?;
    show(
        rt,
        b"a letter more in the value",
        b"HTTP/1.1 302 Found\r\nLocation: l\r\nFIDO-AppID-Redirect-Authorized: truex\r\n\r\n",
    )
}

fn types(rt: &impl Print) -> io::Result<()> {
    show(
        rt,
        b"right type",
        b"HTTP/1.1 200 OK\r\nContent-Type: application/fido.trusted-apps+json\r\n\r\n",
    )?;
    show(
        rt,
        b"upper case",
        b"HTTP/1.1 200 OK\r\nCONTENT-TYPE:APPLICATION/FIDO.TRUSTED-APPS+JSON\r\n\r\n",
    )?;
    show(
        rt,
        b"a parameter",
        b"HTTP/1.1 200 OK\r\nContent-Type: application/fido.trusted-apps+json; charset=utf-8\r\n\r\n",
    )?;
    show(
        rt,
        b"blanks before a parameter",
        b"HTTP/1.1 200 OK\r\nContent-Type: application/fido.trusted-apps+json \t;x\r\n\r\n",
    )?;
    show(
        rt,
        b"a letter more in the type",
        b"HTTP/1.1 200 OK\r\nContent-Type: application/fido.trusted-apps+jsons\r\n\r\n",
    )?;
    show(
        rt,
        b"a semicolon first",
        b"HTTP/1.1 200 OK\r\nContent-Type: ;application/fido.trusted-apps+json\r\n\r\n",
    )?;
    show(
        rt,
        b"a comma",
        b"HTTP/1.1 200 OK\r\nContent-Type: application/fido.trusted-apps+json, application/fido.trusted-apps+json\r\n\r\n",
    )?;
    show(
        rt,
        b"another type, then the right one",
        b"HTTP/1.1 200 OK\r\nContent-Type: text/html\r\nContent-Type: application/fido.trusted-apps+json\r\n\r\n",
    )?;
    show(
        rt,
        b"the right type, then another",
        b"HTTP/1.1 200 OK\r\nContent-Type: application/fido.trusted-apps+json\r\nContent-Type: text/html\r\n\r\n",
    )
}

fn status_lines(rt: &impl Print) -> io::Result<()> {
    show(rt, b"status 000", b"HTTP/1.1 000 x\r\n\r\n")?;
    show(rt, b"status 099", b"HTTP/1.1 099 x\r\n\r\n")?;
    show(rt, b"status 999", b"HTTP/1.1 999 x\r\n\r\n")?;
    show(rt, b"two digits", b"HTTP/1.1 20 x\r\n\r\n")?;
    show(rt, b"four digits", b"HTTP/1.1 2000 x\r\n\r\n")?;
    show(rt, b"version 0.0", b"HTTP/0.0 200 x\r\n\r\n")?;
    show(rt, b"version 9.9", b"HTTP/9.9 200 x\r\n\r\n")?;
    show(rt, b"version 1.10", b"HTTP/1.10 200 x\r\n\r\n")?;
    show(rt, b"lower case", b"http/1.1 200 x\r\n\r\n")?;
    show(rt, b"empty reason", b"HTTP/1.1 200 \r\n\r\n")?;
    show(rt, b"no second space", b"HTTP/1.1 200\r\n\r\n")?;
    show(rt, b"a tab for a space", b"HTTP/1.1 200\tx\r\n\r\n")?;
    show(rt, b"0x1F in the reason", b"HTTP/1.1 200 \x1f\r\n\r\n")?;
    show(
        rt,
        b"0x20 and 0x09 in the reason",
        b"HTTP/1.1 200  \t\r\n\r\n",
    )?;
    show(rt, b"0x7E in the reason", b"HTTP/1.1 200 ~\r\n\r\n")?;
    show(rt, b"0x7F in the reason", b"HTTP/1.1 200 \x7f\r\n\r\n")?;
    show(
        rt,
        b"0x80 and 0xFF in the reason",
        b"HTTP/1.1 200 \x80\xff\r\n\r\n",
    )
}

fn field_lines(rt: &impl Print) -> io::Result<()> {
    show(rt, b"no field line", b"HTTP/1.1 200 OK\r\n\r\n")?;
    show(
        rt,
        b"a blank before the colon",
        b"HTTP/1.1 200 OK\r\nServer : x\r\n\r\n",
    )?;
    show(
        rt,
        b"a folded line",
        b"HTTP/1.1 200 OK\r\nServer: x\r\n y\r\n\r\n",
    )?;
    show(rt, b"no colon", b"HTTP/1.1 200 OK\r\nServer\r\n\r\n")?;
    show(rt, b"empty name", b"HTTP/1.1 200 OK\r\n: x\r\n\r\n")?;
    show(rt, b"empty value", b"HTTP/1.1 200 OK\r\nX:\r\n\r\n")?;
    show(
        rt,
        b"all marks in a name",
        b"HTTP/1.1 200 OK\r\n!#$%&'*+-.^_`|~09AZaz: x\r\n\r\n",
    )?;
    show(
        rt,
        b"a parenthesis in a name",
        b"HTTP/1.1 200 OK\r\nX(: x\r\n\r\n",
    )?;
    show(
        rt,
        b"0x00 in a value",
        b"HTTP/1.1 200 OK\r\nX: \x00\r\n\r\n",
    )?;
    show(
        rt,
        b"0x7F in a value",
        b"HTTP/1.1 200 OK\r\nX: \x7f\r\n\r\n",
    )?;
    show(
        rt,
        b"0xFF in a value",
        b"HTTP/1.1 200 OK\r\nX: \xff\r\n\r\n",
    )
}

fn ends(rt: &impl Print) -> io::Result<()> {
    show(rt, b"empty", b"")?;
    show(rt, b"an empty line first", b"\r\nHTTP/1.1 200 OK\r\n\r\n")?;
    show(rt, b"no empty line", b"HTTP/1.1 200 OK\r\nX: y\r\n")?;
    show(rt, b"no line end", b"HTTP/1.1 200 OK\r\nX: y")?;
    show(rt, b"CR alone", b"HTTP/1.1 200 OK\rX: y\r\n\r\n")?;
    show(rt, b"LF alone", b"HTTP/1.1 200 OK\nX: y\r\n\r\n")?;
    show(rt, b"CR CR LF", b"HTTP/1.1 200 OK\r\r\n\r\n")?;
    show(rt, b"the last LF missing", b"HTTP/1.1 200 OK\r\n\r")?;
    show(rt, b"a byte behind", b"HTTP/1.1 200 OK\r\n\r\nx")?;
    show(rt, b"a line behind", b"HTTP/1.1 200 OK\r\n\r\n\r\n")
}

fn outputs(rt: &impl Print) -> io::Result<()> {
    show_short(
        rt,
        b"item of 7 bytes",
        b"HTTP/1.1 302 Found\r\nLocation: https://a.example/b\r\n\r\n",
        3,
        7,
        40,
    )?;
    show_short(
        rt,
        b"item of 8 bytes",
        b"HTTP/1.1 302 Found\r\nLocation: https://a.example/b\r\n\r\n",
        3,
        8,
        40,
    )?;
    show_short(
        rt,
        b"text of 18 bytes",
        b"HTTP/1.1 302 Found\r\nLocation: https://a.example/b\r\n\r\n",
        3,
        8,
        18,
    )?;
    show_short(
        rt,
        b"text of 19 bytes",
        b"HTTP/1.1 302 Found\r\nLocation: https://a.example/b\r\n\r\n",
        3,
        8,
        19,
    )?;
    show_short(
        rt,
        b"start 65535",
        b"HTTP/1.1 302 Found\r\nLocation: https://a.example/b\r\n\r\n",
        65535,
        8,
        40,
    )?;
    show_short(
        rt,
        b"start 65536",
        b"HTTP/1.1 302 Found\r\nLocation: https://a.example/b\r\n\r\n",
        65536,
        8,
        40,
    )?;
    show_short(
        rt,
        b"start 4294967295",
        b"HTTP/1.1 302 Found\r\nLocation: https://a.example/b\r\n\r\n",
        4294967295,
        8,
        40,
    )?;
    show_short(
        rt,
        b"answer, item of 3 bytes",
        b"HTTP/1.1 200 OK\r\n\r\n",
        3,
        3,
        40,
    )?;
    show_short(
        rt,
        b"answer, item of 4 bytes, no text",
        b"HTTP/1.1 200 OK\r\n\r\n",
        3,
        4,
        0,
    )?;
    show_short(
        rt,
        b"answer, start 65536",
        b"HTTP/1.1 200 OK\r\n\r\n",
        65536,
        8,
        40,
    )?;
    show_short(
        rt,
        b"16 before 15",
        b"HTTP/1.1 302 Found\r\n\r\n",
        65536,
        0,
        0,
    )
}

// A head of n bytes, most of them the value of one field.
fn show_long(rt: &impl Print, label: &[u8], n: usize) -> io::Result<()>
    requires { (23 ≤ n) × (n ≤ 8193) }
{
    let mut head = [b'v'; 8193];
    normal_forms::write_bytes(b"HTTP/1.1 200 OK\r\nX:", &mut head, 0);
    normal_forms::write_bytes(b"\r\n\r\n", &mut head, n - 4);
    show(rt, label, &head[0..n])
}

fn lengths(rt: &impl Print) -> io::Result<()> {
    show_long(rt, b"8,192 bytes", 8192)?;
    show_long(rt, b"8,193 bytes", 8193)
}

fn main(rt: HostRuntime) -> io::Result<()> {
    redirects(&rt)?;
    authorized(&rt)?;
    types(&rt)?;
    status_lines(&rt)?;
    field_lines(&rt)?;
    ends(&rt)?;
    outputs(&rt)?;
    lengths(&rt)
}
