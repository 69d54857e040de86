// Reads a body of at most 65,536 bytes from standard input, asks 1,000 times whether it is readable, and writes how often it was.
// Its first byte is set to a blank before each turn. hub/benches/json.rs takes the time.
#![tactic(auto)]

use full_reads::read_full;
use std::io;
use std::num::wrapping_add_u64;

// Reads the text once, with this blank for its first byte: 1 where it is readable.
fn turn(s: &mut [u8], blank: u8) -> u64 {
    if s.is_empty() {
        return 0;
    }
    s[0] = blank;
    u64::from(json_values::is_readable(s))
}

fn turns(s: &mut [u8]) -> u64 {
    let mut count: u64 = 0;
    for _ in 0..500 {
        count = wrapping_add_u64(count, turn(s, b' '));
        count = wrapping_add_u64(count, turn(s, b'\n'));
    }
    count
}

fn main(rt: HostRuntime) -> io::Result<()> {
    let mut buf = [0u8; 65536];
    let n = read_full(&mut rt.reader(), &mut buf)?;
    println!(rt; "{} readable", turns(&mut buf[..n]))
}
