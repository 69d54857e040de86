// An entry of the selected list: read at its place, held by value, and judged; and the AppID, read once.
#![tactic(auto)]

mod selected;
mod url;
mod walk;

ghost use Rattle.entries.specs.code.Owner.{AppIdIs, OwnedBy, Differs, Judges};
ghost use Rattle.entries.specs.code.Reading.{Decodes, Reads};
ghost use Rattle.entries.specs.code.Selecting.{Selects};

use json_text::Decoded;
use label_lookup::Owner;
use refusals::Refusal;
pub use selected::Selected;
use trusted_list::Version;
pub use url::Url;
pub use walk::Entries;

// ---- the AppID

// Refusal 2; or the HTTPS URL, none where the AppID does not begin `https://`.
pub fn read_appid<'a>(appid: &'a [u8]) -> Result<Option<Url<'a>>, Refusal>
    ensures { AppIdIs appid.now result }
{
    // document 01's bound for an AppID
    if 2048 < appid.len() {
        return Err(Refusal::BadAppId);
    }
    if origin::begins_https(appid) {
        let Some(p) = origin::https_url(appid) else {
            return Err(Refusal::BadAppId);
        };
        let end = p.end;
        return Ok(Some(Url { appid, end }));
    }
    Ok(None)
}

// What is held of the AppID's private label, none where it has none: one pass over the table for the AppID's own host, which stands behind
// `https://` up to its end; two where rules go deeper than its label. None for a bad table.
pub fn find_owner<'a>(appid: &'a [u8], end: usize, table: &[u8]) -> Option<Option<Owner<'a>>>
    ensures { OwnedBy appid.now end table.now result }
{
    let host = ascii::part(appid, 8, end);
    label_lookup::find_owner(host, table)
}

// ---- causes

// Causes 1 to 4.
#[derive(Clone, Copy)]
pub enum Cause {
    TooLong,
    OtherScheme,
    NotFacet,
    OtherLabel,
}

// The host has no private label, or another one than the AppID, for which this is held. Only where rules go deeper than the AppID's
// label are their lines looked up.
fn is_other_label(host: &[u8], owner: &Option<Owner>, table: &[u8]) -> bool
    ensures { Differs table.now owner.now host.now result }
{
    let Some(own) = owner else {
        return true;
    };
    match &own.deeper {
        Some(held) => !deeper_rules::has_label(host, own.label, held, table),
        None => !hosts::ends_at_label(host, own.label),
    }
}

// The first cause that holds of an entry, for such an AppID; none: it is kept.
fn judge(entry: &[u8], owner: &Option<Owner>, table: &[u8]) -> Option<Cause>
    ensures { Judges table.now owner.now entry.now result }
{
    // cause 1's bound
    if 512 < entry.len() {
        return Some(Cause::TooLong);
    }
    if origin::begins_https(entry) {
        let Some(p) = origin::web_origin(entry) else {
            return Some(Cause::NotFacet);
        };
        let end = p.end;
        if is_other_label(&entry[8..end], owner, table) {
            return Some(Cause::OtherLabel);
        }
        return None;
    }
    if origin::begins_native(entry) {
        if origin::is_native(entry) {
            return None;
        }
        return Some(Cause::NotFacet); // a native prefix alone
    }
    Some(Cause::OtherScheme)
}

// ---- an entry

// The cause for which it is discarded, none where it is kept; and where the next one stands.
#[derive(Clone, Copy)]
pub struct Entry {
    pub cause: Option<Cause>,
    pub next: Option<usize>,
}

// The entry at a place, decoded, and the place behind it; one without escapes is copied as it stands. A string that was read before
// stands there.
fn decode_entry(out: &mut Decoded, body: &[u8], at: usize) -> Option<usize>
    ensures { Decodes body.now at out.new result }
{
    let Some(q) = json_text::strings::plain_end(body, at) else {
        return out.decode_string(body, at);
    };
    let from = at + 1;
    let entry = &body[from..q];
    out.hold(entry);
    Some(q + 1)
}

// The entry at a place of the selected list, for an AppID with this owner.
pub fn read_entry(
    out: &mut Decoded,
    body: &[u8],
    at: usize,
    owner: &Option<Owner>,
    table: &[u8],
) -> Entry
    ensures { Reads body.now at owner.now table.now out.new result }
{
    let Some(j) = decode_entry(out, body, at) else {
        return Entry {
            cause: Some(Cause::TooLong),
            next: None,
        };
    };
    let next = trusted_list::next_entry(body, j);
    // more than are held: cause 1
    let Some(entry) = out.held() else {
        return Entry {
            cause: Some(Cause::TooLong),
            next,
        };
    };
    let cause = judge(entry, owner, table);
    Entry { cause, next }
}

// ---- the selected list

// Refusals 9 to 13; or the list.
pub fn select<'a>(
    url: Url<'a>,
    body: &'a [u8],
    wanted: Version,
    table: &'a [u8],
) -> Result<Selected<'a>, Refusal>
    ensures { Selects url.entry.appid.now wanted.major wanted.minor body.now table.now result }
{
    let ids = trusted_list::select(body, wanted)?;
    let Some(owner) = find_owner(url.appid, url.end, table) else {
        return Err(Refusal::BadTable);
    };
    Ok(Selected {
        appid: url.appid,
        owner,
        body,
        ids,
        table,
    })
}
