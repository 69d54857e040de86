// Normal forms, and bytes written into a lent slice.
#![tactic(auto)]

mod web;
mod writer;

ghost use Rattle.std.specs.Prelude.{◌≡◌, ◌+◌, length, leb};
ghost use Rattle.origin.specs.Origin.{normal_form};
ghost use Rattle.normal_forms.specs.code.Writing.{Wrote};

use web::Web;
pub use writer::Writer;

// ---- bytes

// So many bytes fit at a place into an output of this length.
fn fits(room: usize, at: usize, n: usize) -> bool
    ensures { result ≡ leb (at + n) room }
{
    if room < n {
        return false;
    }
    at <= room - n
}

// The bytes x written into out at a place, where there is room for them all.
// Returns the place behind them, or the same place where there is no room: how far is written in either case, so no Option.
pub fn write_bytes(x: &[u8], out: &mut [u8], at: usize) -> usize
    ensures { Wrote x.now at out.old out.new result }
{
    if !fits(out.len(), at, x.len()) {
        return at;
    }
    let end = at + x.len();
    ascii::overwrite(&mut out[at..end], x);
    end
}

// ---- normal forms

pub fn normal_length(s: &[u8]) -> usize
    ensures { result ≡ length (normal_form s.now) }
{
    match Web::read(s) {
        Some(w) => w.length(),
        None => s.len(),
    }
}
