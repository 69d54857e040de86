// The decision and the fetch location.
#![tactic(auto)]

ghost use Rattle.std.specs.Prelude.{◌≡◌, Some};
ghost use Rattle.fetch_record.specs.Record.{last_hop};
ghost use Rattle.entries.specs.code.Selecting.{kept_of};
ghost use Rattle.decision.specs.Answer.{answer_number};
ghost use Rattle.decision.specs.Decide.{first_match, by_list, decide, list_due};
ghost use Rattle.decision.specs.Location.{fetch_from, fetch_location, source_from, fetch_source};
ghost use Rattle.decision.specs.code.Meaning.{answer_of, listed_of, Before, Locates};
ghost use Rattle.decision.specs.declared.Answer.TheVariants.{Refused};

use ascii::Span;
use entries::{Selected, Url};
use fetch_record::{FetchRecord, item};
use refusals::Refusal;
use trusted_list::Version;

// An allowance by one of four rules, fetch, or a refusal: document 01's three answers, so no Result.
#[derive(Clone, Copy)]
pub enum Answer {
    Rule1,
    Rule2,
    Rule3,
    Rule4(usize),
    Fetch,
    Refused(Refusal),
}

// 1 to 4 a rule, 5 fetch, 100 + refusal.
impl From<Answer> for u16 {
    ghost from_gives = { λ a n. n ≡ answer_number (answer_of a) };

    fn from(a: Answer) -> u16 {
        match a {
            Answer::Rule1 => 1,
            Answer::Rule2 => 2,
            Answer::Rule3 => 3,
            Answer::Rule4(_) => 4,
            Answer::Fetch => 5,
            Answer::Refused(x) => 100 + u16::from(x),
        }
    }
}

impl From<Refusal> for Answer {
    ghost from_gives = { λ x a. a ≡ Refused x };

    fn from(refusal: Refusal) -> Answer {
        Answer::Refused(refusal)
    }
}

// The list is due: the AppID, and the response that came.
#[derive(Clone, Copy)]
pub struct Due<'a> {
    pub url: Url<'a>,
    pub response: item::Answer,
}

// ---- before the list

// The list is due; or what caller, AppID and record settle, as the error.
pub fn before_list<'a>(
    caller: &[u8],
    appid: &'a [u8],
    fetched: FetchRecord,
) -> Result<Due<'a>, Answer>
    ensures { Before caller.now appid.now fetched.entry.items.now fetched.entry.text.now result }
{
    if !origin::is_facet(caller) {
        return Err(Answer::from(Refusal::Stranger));
    }
    let Some(url) = entries::read_appid(appid)? else {
        // of `is_empty` the proof did not close, at this answer
        if appid.len() == 0 {
            return Err(Answer::Rule2);
        }
        if ascii::equal(appid, caller) {
            return Err(Answer::Rule1);
        }
        return Err(Answer::from(Refusal::ForeignAppId));
    };
    if matching::same_host(caller, appid) {
        return Err(Answer::Rule3);
    }
    match fetched.fetching()? {
        None => Err(Answer::Fetch),
        Some(response) => Ok(Due { url, response }),
    }
}

// ---- by the list

// The place of the first kept entry that matches.
fn first_match(caller: &[u8], list: &Selected) -> Option<usize>
    ensures { result ≡ first_match caller.now (kept_of list.now) }
{
    // no `fold`: a closure would have to say with each answer whether the walk goes on
    let mut entries = list.entries();
    let mut n = 0;
    while let Some(cause) = entries.advance() {
        if cause.is_none() {
            if matching::matches(caller, entries.held()) {
                return Some(n);
            }
            // of the kept entries, so no index of the loop
            n += 1;
        }
    }
    None
}

// Refusals 7 to 14, or the place of the kept entry by which rule 4 allows.
fn by_list(
    caller: &[u8],
    due: Due,
    wanted: Version,
    body: &[u8],
    table: &[u8],
) -> Result<usize, Refusal>
    ensures { listed_of result ≡ by_list caller.now due.entry.url.appid.now wanted.major wanted.minor body.now table.now (list_due due.entry.response) }
{
    if due.response.status != 200 {
        return Err(Refusal::NotFetched);
    }
    if !due.response.type_seen {
        return Err(Refusal::WrongType);
    }
    let list = entries::select(due.url, body, wanted, table)?;
    first_match(caller, &list).ok_or(Refusal::NotListed)
}

// ---- the decision

// Caller, AppID, version, body and table are arguments, as document 01's decision has them, here, in cleaning and in the tally: a struct of
// the last three would be made in each exported call only to be taken apart in `entries::select`.
pub fn decide(
    caller: &[u8],
    appid: &[u8],
    wanted: Version,
    fetched: FetchRecord,
    body: &[u8],
    table: &[u8],
) -> Answer
    ensures { answer_of result ≡ decide caller.now appid.now wanted.major wanted.minor fetched.entry.items.now fetched.entry.text.now body.now table.now }
{
    match before_list(caller, appid, fetched) {
        Err(a) => a,
        Ok(due) => match by_list(caller, due, wanted, body, table) {
            Ok(n) => Answer::Rule4(n),
            Err(x) => Answer::from(x),
        },
    }
}

// ---- the fetch location

// The AppID, or a part of the text: the two lent slices that a location stands in. Neither is nothing, so no Option.
#[derive(Clone, Copy)]
pub enum Location {
    AppId,
    Text(Span),
}

fn last_target(fetched: FetchRecord, appid: &[u8]) -> Location
    ensures { Locates appid.now fetched.entry.text.now (fetch_from appid.now fetched.entry.items.now fetched.entry.text.now) (source_from (last_hop fetched.entry.items.now fetched.entry.text.now)) (Some result) }
{
    match fetched.last_location() {
        None => Location::AppId,
        Some(span) => Location::Text(span),
    }
}

// Where the list is to be fetched from; none unless the decision is fetch.
pub fn locate(caller: &[u8], appid: &[u8], fetched: FetchRecord) -> Option<Location>
    ensures { Locates appid.now fetched.entry.text.now (fetch_location caller.now appid.now fetched.entry.items.now fetched.entry.text.now) (fetch_source caller.now appid.now fetched.entry.items.now fetched.entry.text.now) result }
{
    match before_list(caller, appid, fetched) {
        Err(a) => match a {
            Answer::Fetch => Some(last_target(fetched, appid)),
            _ => None,
        },
        Ok(_) => None,
    }
}

// The same as a part of the lent AppID or text, letters as given; empty for none, which document 01's part of a lent slice is, so no
// Option: `locate` answers one.
pub fn fetch_location<'a>(caller: &[u8], appid: &'a [u8], fetched: FetchRecord<'_, 'a>) -> &'a [u8]
    ensures { result.now ≡ fetch_location caller.now appid.now fetched.entry.items.now fetched.entry.text.now }
{
    match locate(caller, appid, fetched) {
        None => &appid[0..0],
        Some(Location::AppId) => appid,
        Some(Location::Text(span)) => span.of(fetched.text),
    }
}
