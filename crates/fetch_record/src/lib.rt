// The fetch record: at most 8 redirects, then at most one answer, then the end; what it settles of the decision.
#![tactic(auto)]

pub mod item;

ghost use Rattle.std.specs.Prelude.{◌≡◌, true, [], ◌∷◌, ◌+◌, ◌*◌, ◌≤◌, length};
ghost use Rattle.fetch_record.specs.Record.{read_end, in_text, hop_refusal, last_location, last_redirect, last_hop};
ghost use Rattle.fetch_record.specs.Fetching.{fetching};
ghost use Rattle.fetch_record.specs.code.Meaning.{redirect_at, redirects_in, end_read, Placed, Counts, Lays, hops_read, target, Targets};

use ascii::Span;
use item::{Answer, Redirect};
use refusals::Refusal;

// The items of a record, and the text in which its Locations stand.
#[derive(Clone, Copy)]
pub struct FetchRecord<'i, 't> {
    pub items: &'i [u8],
    pub text: &'t [u8],
}

// A whole record: how many redirects, and the answer behind them.
#[derive(Clone, Copy)]
struct Layout {
    count: usize,
    answer: Option<Answer>,
}

// At most one answer, then the end: an answer is its kind, 2, and a body of 3 bytes.
fn read_end(s: &[u8]) -> Option<Option<Answer>>
    ensures { end_read result ≡ read_end s.now }
{
    if s.is_empty() {
        return Some(None);
    }
    if s.len() != 4 {
        return None;
    }
    if s[0] != 2 {
        return None; // no answer
    }
    Some(Some(item::read_answer(&s[1..4])?))
}

// One hop: refusal 5 before 6.
fn hop(text: &[u8], h: Redirect) -> Result<(), Refusal>
    requires { in_text text.now h ≡ true }
    ensures { hops_read result ≡ hop_refusal text.now (h ∷ []) }
{
    if !h.authorized {
        return Err(Refusal::OpenRedirect);
    }
    let start = usize::from(h.start);
    let end = h.location_end();
    match origin::https_url(&text[start..end]) {
        Some(_) => Ok(()),
        None => Err(Refusal::BadLocation),
    }
}

impl FetchRecord<'_, '_> {
    // The redirects at the front, at most 8, each well formed and with its Location inside the text. A redirect is its kind,
    // 1, and a body of 7 bytes: the n-th, from 0, stands at 8 * n.
    fn count_redirects(self) -> Option<usize>
        ensures { Counts self.entry.items.now self.entry.text.now result }
    {
        // by number: the number of the first item that is no redirect is the answer
        for n in 0..8 {
            let at = 8 * n;
            if self.items.len() <= at {
                return Some(n);
            }
            if self.items[at] != 1 {
                return Some(n);
            }
            if self.items.len() - at < 8 {
                return None;
            }
            let from = at + 1;
            let to = at + 8;
            let h = item::read_redirect(&self.items[from..to])?;
            if self.text.len() < h.location_end() {
                return None;
            }
        }
        Some(8)
    }

    // The whole record, with each Location inside the text.
    fn lay(self) -> Option<Layout>
        ensures { Lays self.entry.items.now self.entry.text.now result }
    {
        let count = self.count_redirects()?;
        let at = 8 * count;
        let answer = read_end(&self.items[at..])?;
        Some(Layout { count, answer })
    }

    // The k-th redirect of a record, from 0.
    fn redirect_at(self, k: usize) -> Redirect
        requires { 8 * k + 8 ≤ length self.items.now }
        ensures { result ≡ redirect_at k self.entry.items.now }
    {
        let from = 8 * k + 1;
        let to = 8 * k + 8;
        item::redirect_in(&self.items[from..to])
    }

    // The first n redirects, hop by hop.
    fn hops_of(self, n: usize) -> Result<(), Refusal>
        requires { Placed self.items.now self.text.now n }
        ensures { hops_read result ≡ hop_refusal self.entry.text.now (redirects_in n self.entry.items.now) }
    {
        for k in 0..n {
            hop(self.text, self.redirect_at(k))?;
        }
        Ok(())
    }

    // Refusal 4, over the whole record; then hop by hop 5 before 6; none, for fetch, where the record has no answer.
    pub fn fetching(self) -> Result<Option<Answer>, Refusal>
        ensures { result ≡ fetching self.entry.items.now self.entry.text.now }
    {
        let Some(layout) = self.lay() else {
            return Err(Refusal::BadRecord);
        };
        self.hops_of(layout.count)?;
        Ok(layout.answer)
    }

    // Where the last redirect's Location stands in the text; none for a bad record too.
    pub fn last_location(self) -> Option<Span>
        ensures { Targets self.entry.text.now (target self.entry.items.now self.entry.text.now) (last_hop self.entry.items.now self.entry.text.now) result }
    {
        self.last_of(self.lay()?.count)
    }

    // The Location of the last of the first n redirects.
    fn last_of(self, n: usize) -> Option<Span>
        requires { Placed self.items.now self.text.now n }
        ensures { Targets self.entry.text.now (last_location self.entry.text.now (redirects_in n self.entry.items.now)) (last_redirect (redirects_in n self.entry.items.now)) result }
    {
        if n == 0 {
            return None;
        }
        let h = self.redirect_at(n - 1);
        Some(Span {
            from: usize::from(h.start),
            to: h.location_end(),
        })
    }
}
