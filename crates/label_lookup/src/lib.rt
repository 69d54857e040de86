// The private label of a host: what one pass over the suffix table finds for it, and what is held of rules deeper than the label.
#![tactic(auto)]

mod spans;

ghost use Rattle.std.specs.Prelude.{◌≡◌, true, ◌&&◌, ◌++◌, ◌≤◌, suc, max, length, leb, option_map};
ghost use Rattle.ascii.specs.Ascii.{last_of, text};
ghost use Rattle.hosts.specs.Host.{labels, is_host};
ghost use Rattle.hosts.specs.code.Place.{Stands};
ghost use Rattle.suffix.specs.Suffix.{normal, read_table, private_label, or_empty};
ghost use Rattle.suffix.specs.code.Pass.{read_line};
ghost use Rattle.suffix.specs.code.Deeper.{goes_deeper, deeper_in};
ghost use Rattle.suffix.specs.code.Depth.{line_depth, Good, is_good, Past};
ghost use Rattle.suffix.specs.code.Idle.{Passes};
ghost use Rattle.label_lookup.specs.code.Answer.{depths_of, deepened, LookupIs};
ghost use Rattle.label_lookup.specs.code.Finds.{FindsHost, FindsRule, FindsLine};
ghost use Rattle.label_lookup.specs.code.Search.{NextLine};
ghost use Rattle.label_lookup.specs.code.Span.{OwnerIs};

use ascii::Span;
use ascii::classes::Classes;
use suffix::skips::Kinds;
use suffix::{Form, Sizes};

// What rules find for a host, with the most last labels of the host that a rule goes deeper than.
#[derive(Clone, Copy)]
pub struct Depths {
    pub sizes: Sizes,
    pub depth: usize,
}

// What one pass tells of a host that has a private label: the label, letters as given, and what the table finds for the host, where a
// rule goes deeper than the label.
#[derive(Clone, Copy)]
pub struct Lookup<'a> {
    pub label: &'a [u8],
    pub deeper: Option<Sizes>,
}

// What is held of rules that go deeper than the private label of a host: what the table finds for the host; and where a span of lines
// begins and ends that has all these rules.
#[derive(Clone, Copy)]
pub struct Deeper {
    pub sizes: Sizes,
    pub span: Span,
}

// The private label of a host, letters as given, and what is held of the rules that go deeper, where some do.
#[derive(Clone, Copy)]
pub struct Owner<'a> {
    pub label: &'a [u8],
    pub deeper: Option<Deeper>,
}

// What is read of a line that makes no table bad.
#[derive(Clone, Copy)]
struct Line<'a> {
    bytes: &'a [u8],
    ghost good: { Good bytes.now },
}

// `*.` and v is a rule: v is a host, and both have at most 253 bytes. The classes are lent, here and below.
fn is_wild(classes: &Classes, v: &[u8]) -> bool
    ensures { result ≡ (is_host v.now && leb (length v.now) 251) }
{
    if 251 < v.len() {
        return false;
    }
    hosts::is_host_by(classes.table(), v)
}

// `!` and v is a rule: v is a host of two labels or more.
fn is_exception(classes: &Classes, v: &[u8]) -> bool
    ensures { result ≡ (is_host v.now && leb 2 (length (labels v.now))) }
{
    if hosts::is_host_by(classes.table(), v) {
        return 2 <= hosts::label_count(v);
    }
    false
}

// What is read of a line makes no table bad.
fn is_good(classes: &Classes, w: &[u8]) -> bool
    ensures { result ≡ is_good w.now }
{
    match suffix::form_of(w) {
        Form::Nothing => true,
        Form::Star => true,
        Form::Wild => is_wild(classes, &w[2..]),
        Form::Exception => is_exception(classes, &w[1..]),
        Form::Name => hosts::is_host_by(classes.table(), w),
    }
}

// What the rule w finds, a host.
fn name_sizes(host: &[u8], w: &[u8]) -> Sizes
    ensures { FindsHost host.now w.now result }
{
    if hosts::ends_at_label(host, w) {
        return Sizes::new(0, hosts::label_count(w));
    }
    Sizes::new(0, 0)
}

// The rule `*.` and v.
fn wild_sizes(host: &[u8], v: &[u8]) -> Sizes
    ensures { FindsRule host.now (text "*." ++ v.now) result }
{
    if hosts::ends_at_label(host, v) {
        if v.len() < host.len() {
            return Sizes::new(0, hosts::label_count(v) + 1);
        }
    }
    Sizes::new(0, 0)
}

// The exception `!` and v. Not one function with `name_sizes`: an exception counts in both numbers and a name in one, and their
// contracts are of different forms, `FindsRule` and `FindsHost`.
fn exception_sizes(host: &[u8], v: &[u8]) -> Sizes
    ensures { FindsRule host.now (text "!" ++ v.now) result }
{
    if hosts::ends_at_label(host, v) {
        let n = hosts::label_count(v);
        return Sizes::new(n, n);
    }
    Sizes::new(0, 0)
}

// What is read of a line finds this, where it is good. Inlined: a call for each line at which the pass stops takes a sixth of
// the time that a table of such lines takes.
#[inline(always)]
pub fn form_sizes(host: &[u8], w: &[u8]) -> Sizes
    ensures { FindsLine host.now w.now result }
{
    match suffix::form_of(w) {
        Form::Nothing => Sizes::new(0, 0),
        Form::Star => Sizes::new(0, 1),
        Form::Wild => wild_sizes(host, &w[2..]),
        Form::Exception => exception_sizes(host, &w[1..]),
        Form::Name => name_sizes(host, w),
    }
}

// The rule or exception whose name is the host w goes deeper than the label.
fn name_deeper(label: &[u8], w: &[u8]) -> bool
    requires { is_host w.now ≡ true }
    ensures { result ≡ goes_deeper (labels label.now) (normal (labels w.now)) }
{
    if hosts::ends_at_label(w, label) {
        return hosts::label_count(label) < hosts::label_count(w);
    }
    false
}

// What is read of a line has a rule that goes deeper than the label. Inlined, as `form_sizes`.
#[inline(always)]
fn form_deeper(label: &[u8], line: &Line) -> bool
    ensures { result ≡ deeper_in (labels label.now) (read_line line.now.bytes.now) }
{
    let w = line.bytes;
    match suffix::form_of(w) {
        Form::Nothing => false,
        Form::Star => false,
        Form::Wild => hosts::ends_at_label(&w[2..], label),
        Form::Exception => name_deeper(label, &w[1..]),
        Form::Name => name_deeper(label, w),
    }
}

// How many of the host's last labels it goes deeper than, or the depth that is known already.
fn form_climb(host: &[u8], depth: usize, line: &Line) -> usize
    ensures { result ≡ max depth (line_depth (labels host.now) (read_line line.now.bytes.now)) }
{
    let n = hosts::label_count(host);
    for k in depth..n {
        let at = hosts::last_labels(host, k + 1);
        if !form_deeper(&host[at..], line) {
            return k;
        }
    }
    depth.max(n)
}

// The same; tail has one label more than the depth before it. Most lines do not go deeper than these, and none is climbed twice.
fn form_depth(host: &[u8], tail: &[u8], depth: usize, line: &Line) -> usize
    requires { Past host.now tail.now depth }
    ensures { result ≡ max depth (line_depth (labels host.now) (read_line line.now.bytes.now)) }
{
    if form_deeper(tail, line) {
        return form_climb(host, depth, line);
    }
    depth
}

// What any line finds, with the depth before it, whose labels and one more begin at start; none for one that makes the table bad.
// Depth and start stand together here, in `deeper_tail` and in `next_candidate`: a struct of the two with the fact as its ghost field
// would hold the host as well, which the fact names, and be made anew at each line that goes deeper.
fn line_finds(
    classes: &Classes,
    host: &[u8],
    depth: usize,
    start: usize,
    w: &[u8],
) -> Option<Depths>
    requires { Stands (last_of (suc depth) (labels host.now)) host.now start }
    ensures { result ≡ deepened depth (depths_of (labels host.now) (read_line w.now)) }
{
    if is_good(classes, w) {
        let line = Line { bytes: w };
        let sizes = form_sizes(host, w);
        let depth = form_depth(host, &host[start..], depth, &line);
        return Some(Depths { sizes, depth });
    }
    None
}

// Where the labels begin that are one more than the depth; the host's start where it has no more.
fn tail_start(host: &[u8], depth: usize) -> usize
    ensures { Stands (last_of (suc depth) (labels host.now)) host.now result }
{
    if depth < hosts::label_count(host) {
        return hosts::last_labels(host, depth + 1);
    }
    0
}

// The same for the larger of two depths, where the place is known for one.
fn deeper_tail(host: &[u8], depth: usize, start: usize, d: usize) -> usize
    requires { Stands (last_of (suc depth) (labels host.now)) host.now start }
    ensures { Stands (last_of (suc (max depth d)) (labels host.now)) host.now result }
{
    if depth < d {
        return tail_start(host, d);
    }
    start
}

// What is read of the first line from a place on that may find something, none where there is none: the pass over the others, by what
// is found so far. Where the line ends is sought behind it by those that go on.
fn next_candidate(
    kinds: &Kinds,
    most: usize,
    depth: usize,
    last: usize,
    table: &[u8],
    at: usize,
) -> Option<Span>
    ensures { NextLine kinds.now.host.now table.now most depth last at result }
{
    let from = kinds.idle_lines(most, depth, last, table, at);
    if table.len() <= from {
        return None;
    }
    let to = suffix::short_content_end(table, from);
    Some(Span { from, to })
}

// The lines of the table, but for those that find nothing; the host's last label begins at last. A loop, since what is found so far
// says which line is next. The depth, the place where its labels begin and the sizes change together in this loop alone, each by a
// function of its own, so that a struct of them would be no plainer.
fn deep_lines(classes: &Classes, kinds: &Kinds, last: usize, table: &[u8]) -> Option<Depths>
    requires { Passes kinds.now.host.now table.now 0 last 0 }
    ensures { result ≡ depths_of (labels kinds.now.host.now) (read_table table.now) }
{
    let host = kinds.host;
    let mut sizes = Sizes::new(0, 0);
    let mut depth = 0;
    let mut start = last;
    let mut at = 0;
    while let Some(found) = next_candidate(kinds, sizes.most, depth, start, table, at) {
        let line = line_finds(classes, host, depth, start, found.of(table))?;
        sizes = sizes.join(line.sizes);
        start = deeper_tail(host, depth, start, line.depth);
        depth = depth.max(line.depth);
        at = suffix::skips::short_end(table, found.to) + 1;
    }
    Some(Depths { sizes, depth })
}

// One pass over the table, for the sizes and the depth; none for a bad table.
#[tactic(auto, using(crate::proofs::RoundLaws::deeps_long))]
pub fn deep_rules(host: &[u8], table: &[u8]) -> Option<Depths>
    ensures { result ≡ depths_of (labels host.now) (read_table table.now) }
{
    // 2^20, the longest table
    if 1048576 < table.len() {
        return None;
    }
    let classes = Classes::new();
    let kinds = Kinds::new(&classes, host);
    let last = hosts::last_labels(host, 1);
    deep_lines(&classes, &kinds, last, table)
}

// The private label, and what the table finds where rules go deeper, in one pass: none for a bad table; and none within, where the
// host has no private label.
fn look_up<'a>(host: &'a [u8], table: &[u8]) -> Option<Option<Lookup<'a>>>
    ensures { LookupIs table.now host.now result }
{
    let found = deep_rules(host, table)?;
    if !hosts::is_host(host) {
        return Some(None);
    }
    if hosts::is_address(host) {
        return Some(None);
    }
    let n = found.sizes.suffix_size();
    if n < hosts::label_count(host) {
        let start = hosts::last_labels(host, n + 1);
        let label = &host[start..];
        let deeper = if n < found.depth {
            Some(found.sizes)
        } else {
            None
        };
        return Some(Some(Lookup { label, deeper }));
    }
    Some(None)
}

// The private label, and what is held of the rules that go deeper: a second pass only where there are some. Where there is none, a
// host has the label exactly where it ends in it (`one_label` of suffix/proofs/Speed.antt). None for a bad table; and none within, where
// the host has no private label.
pub fn find_owner<'a>(host: &'a [u8], table: &[u8]) -> Option<Option<Owner<'a>>>
    ensures { OwnerIs table.now host.now result }
{
    let Some(found) = look_up(host, table)? else {
        return Some(None);
    };
    let label = found.label;
    if let Some(sizes) = found.deeper {
        let span = spans::find_span(label, table);
        let deeper = Deeper { sizes, span };
        return Some(Some(Owner {
            label,
            deeper: Some(deeper),
        }));
    }
    Some(Some(Owner {
        label,
        deeper: None,
    }))
}

// The private label of the host, letters as given. What is no host, or an address, has none whatever the table says.
fn find_label<'a>(host: &'a [u8], table: &[u8]) -> Option<&'a [u8]>
    ensures { option_map (λ l. l.now) result ≡ private_label table.now host.now }
{
    if !hosts::is_host(host) {
        return None;
    }
    if hosts::is_address(host) {
        return None;
    }
    let found = look_up(host, table)??;
    Some(found.label)
}

// The same; empty where there is none, as the interface of C answers it.
pub fn private_label<'a>(host: &'a [u8], table: &[u8]) -> &'a [u8]
    ensures { result.now ≡ or_empty (private_label table.now host.now) }
{
    find_label(host, table).unwrap_or(b"")
}
