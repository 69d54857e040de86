// The span of the table's lines that has every rule deeper than a label.
ghost use Rattle.std.specs.Prelude.{◌≡◌, false, ◌-◌};
ghost use Rattle.ascii.specs.Ascii.{is_none};
ghost use Rattle.suffix.specs.Suffix.{read_table};
ghost use Rattle.label_lookup.specs.code.Span.{Spans};
ghost use Rattle.label_lookup.specs.code.Search.{Seeks, Found};

use crate::{Line, form_deeper, next_candidate};
use ascii::Span;
use ascii::classes::Classes;
use suffix::skips;
use suffix::skips::Kinds;

// The first line from a place on that has a rule deeper than the label, whose labels are `count`; none where there is none. No rule
// that matches the label has more labels than these, so none stops the pass over other lines. A loop, since each turn begins behind
// the line that the one before read.
fn next_deeper(kinds: &Kinds, count: usize, table: &[u8], from: usize) -> Option<usize>
    requires { Seeks kinds.now.host.now table.now count from }
    ensures { Found kinds.now.host.now table.now (count - 1) from result }
{
    let mut at = from;
    while let Some(found) = next_candidate(kinds, count, count - 1, 0, table, at) {
        let line = Line {
            bytes: found.of(table),
        };
        if form_deeper(kinds.host, &line) {
            return Some(found.from);
        }
        at = skips::short_end(table, found.to) + 1;
    }
    None
}

// The span from the first line with a rule deeper than the label to the last one. A table without such a line, which no caller has,
// is its own span. A loop, since each turn begins behind the line that the one before found.
pub(crate) fn find_span(label: &[u8], table: &[u8]) -> Span
    requires { is_none (read_table table.now) ≡ false }
    ensures { Spans table.now label.now result.from result.to }
{
    let kinds = Kinds::new(&Classes::new(), label);
    let count = hosts::label_count(kinds.host);
    let Some(from) = next_deeper(&kinds, count, table, 0) else {
        return Span {
            from: 0,
            to: table.len(),
        };
    };
    let mut to = skips::line_end(table, from);
    while let Some(at) = next_deeper(&kinds, count, table, to + 1) {
        to = skips::line_end(table, at);
    }
    Span { from, to }
}
