// Reads texts from standard input, each behind its length in two bytes, big-endian, of at most 4,096, and writes a line for each:
// `unreadable`, `readable`, or, where the text is one string, `string` and its decoded bytes in hexadecimal, or `string long`.
#![tactic(auto)]

use full_reads::read_full;
use json_text::Decoded;
use normal_forms::Writer;
use std::io;
use std::io::Read;

const DIGITS: [u8; 16] = *b"0123456789abcdef";

fn put_byte(line: &mut Writer, b: u8) {
    line.write(&[DIGITS[usize::from(b / 16)], DIGITS[usize::from(b % 16)]]);
}

fn put_hex(line: &mut Writer, bytes: &[u8]) {
    for b in bytes {
        put_byte(line, *b);
    }
}

fn put_decoded(line: &mut Writer, decoded: &Decoded) {
    match decoded.held() {
        Some(bytes) => put_hex(line, bytes),
        None => line.write(b"long"),
    }
}

// The answer to one text.
fn answer(rt: &impl Print, s: &[u8]) -> io::Result<bool> {
    if !json_values::is_readable(s) {
        rt.write_all(b"unreadable\n")?;
        return Ok(true);
    }
    let i = json_text::skip_blanks(s, 0);
    if json_text::byte_at(s, i) != Some(b'"') {
        rt.write_all(b"readable\n")?;
        return Ok(true);
    }
    let mut decoded = Decoded::new();
    let Some(_) = decoded.decode_string(s, i) else {
        return Ok(false);
    };
    let mut space = [0u8; 1040];
    let mut line = Writer {
        out: &mut space,
        at: 0,
    };
    line.write(b"string ");
    put_decoded(&mut line, &decoded);
    line.write(b"\n");
    let n = line.at;
    rt.write_all(ascii::prefix(&space, n))?;
    Ok(true)
}

// Answers one text; false at the end of the input.
fn one(rt: &impl Print, reader: &mut impl Read) -> io::Result<bool> {
    let mut length = [0u8; 2];
    if read_full(reader, &mut length)? < 2 {
        return Ok(false);
    }
    let n = usize::from(u16::from_be_bytes(length));
    let mut space = [0u8; 4096];
    let Some(text) = space.get_mut(..n) else {
        return Ok(false);
    };
    if read_full(reader, text)? != n {
        return Ok(false);
    }
    answer(rt, text)
}

fn main(rt: HostRuntime) -> io::Result<()> {
    let mut reader = rt.reader();
    // a `for`, as no loop may run for ever; so many texts never come
    for _ in 0..u64::MAX {
        if !one(&rt, &mut reader)? {
            break;
        }
    }
    Ok(())
}
