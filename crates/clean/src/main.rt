// Reads the files `appid`, `table` and `body`, wants version 1.0, and prints the cleaned list and an LF; on refusal `refused `,
// the number, LF. A file that can't be opened or read counts as empty. A table of more than 65,536 bytes is treated as bad.
// A write that fails ends it with that error.
#![tactic(auto)]

ghost use Rattle.std.specs.Prelude.{◌≤◌, length};

use full_reads::read_full;
use refusals::Refusal;
use std::rt::Files;
use std::{fs, io};
use trusted_list::Version;

// The bytes of a file, as many as there is room for; none where it can't be opened or read. One byte of room more than a bound
// shows that the file is longer.
fn read_file<'a>(rt: &impl Files, name: &str, room: &'a mut [u8]) -> &'a [u8]
    ensures bound { length result.now ≤ length room.old }
{
    let Ok(mut file) = fs::open(rt, name) else {
        return &[];
    };
    let n = read_full(&mut file, room).unwrap_or(0);
    &room[..n]
}

fn print_refusal(rt: &impl Print, x: Refusal) -> io::Result<()> {
    println!(rt; "refused {}", u16::from(x))
}

fn print_list(rt: &impl Print, list: &[u8]) -> io::Result<()> {
    rt.write_all(list)?;
    rt.write_all(b"\n")
}

fn print_cleaned(rt: &impl Print, appid: &[u8], body: &[u8], table: &[u8]) -> io::Result<()> {
    let mut out = [0u8; 65536];
    let wanted = Version { major: 1, minor: 0 };
    match cleaning::clean(appid, wanted, body, table, &mut out) {
        Err(x) => print_refusal(rt, x),
        Ok(n) => print_list(rt, &out[..n]),
    }
}

fn clean_files(rt: &(impl Files + Print)) -> io::Result<()> {
    let mut appid_room = [0u8; 2049];
    let appid = read_file(rt, "appid", &mut appid_room);
    let mut body_room = [0u8; 65537];
    let body = read_file(rt, "body", &mut body_room);
    let mut table_room = [0u8; 65537];
    let table = read_file(rt, "table", &mut table_room);
    if 65536 < table.len() {
        // no rule, so a bad table
        return print_cleaned(rt, appid, body, b"!");
    }
    print_cleaned(rt, appid, body, table)
}

fn main(rt: HostRuntime) -> io::Result<()> {
    clean_files(&rt)
}
