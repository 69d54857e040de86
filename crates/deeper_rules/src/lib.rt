// Rules that go deeper than a private label: what the span of their lines finds for a host that ends in it.
#![tactic(auto)]

ghost use Rattle.deeper_rules.specs.code.Findings.{FindsTable, Tells};

use label_lookup::Deeper;
use suffix::Sizes;

// The lines of a table that is known to be good, one after another. A loop, since each turn begins where the search for the line's
// end stopped, which goes 64 bytes a turn; the library's split goes byte for byte.
fn lines_finding(host: &[u8], s: &[u8]) -> Sizes
    ensures { FindsTable host.now s.now result }
{
    let mut found = Sizes::new(0, 0);
    let mut at = 0;
    loop {
        let to = suffix::skips::content_end(s, at);
        let line = label_lookup::form_sizes(host, &s[at..to]);
        found = found.join(line);
        let end = suffix::skips::line_end(s, to);
        if s.len() <= end {
            return found;
        }
        at = end + 1;
    }
}

// The same by the pass over a table, which is faster where most of many lines find nothing.
fn pass_finding(host: &[u8], s: &[u8]) -> Sizes
    ensures { FindsTable host.now s.now result }
{
    match label_lookup::deep_rules(host, s) {
        Some(found) => found.sizes,
        None => Sizes::new(0, 0),
    }
}

// Either, by the length: the widest span in the published table has 4,894 bytes.
fn table_finding(host: &[u8], s: &[u8]) -> Sizes
    ensures { FindsTable host.now s.now result }
{
    if 8192 < s.len() {
        return pass_finding(host, s);
    }
    lines_finding(host, s)
}

// The private label of the host is this one, without regard to case. What the table found for the host whose label it is, joined
// with what the span finds for this one, gives the size of its public suffix.
pub fn has_label(host: &[u8], label: &[u8], held: &Deeper, table: &[u8]) -> bool
    ensures { Tells table.now label.now held.now host.now result }
{
    if hosts::ends_at_label(host, label) {
        let span = table_finding(host, held.span.of(table));
        let joined = held.sizes.join(span);
        return joined.suffix_size() == held.sizes.suffix_size();
    }
    false
}
