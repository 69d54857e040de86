// JSON on both sides of each bound: what is expected follows from document 01 and RFC 8259, not from a run.
#![tactic(auto)]

use std::io;

mod bytes;
mod escapes;
mod lengths;
mod nesting;
mod tally;
mod texts;
mod words;

fn main(rt: HostRuntime) -> io::Result<()> {
    nesting::all().print(&rt, b"nesting")?;
    lengths::all().print(&rt, b"decoded lengths")?;
    bytes::all_raw().print(&rt, b"raw bytes")?;
    bytes::all_escaped().print(&rt, b"bytes behind a backslash")?;
    bytes::all_pairs().print(&rt, b"two bytes")?;
    escapes::all_alone().print(&rt, b"\\u alone")?;
    escapes::all_pairs().print(&rt, b"pairs decoded")?;
    words::surrogates().print(&rt, b"surrogates")?;
    words::utf8().print(&rt, b"UTF-8")?;
    words::numbers().print(&rt, b"numbers")?;
    words::texts().print(&rt, b"texts")
}
