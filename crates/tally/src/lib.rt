// The tally: how many entries are kept, and how many are discarded for each cause.
#![tactic(auto)]

ghost use Rattle.std.specs.Prelude.{◌≡◌};
ghost use Rattle.entries.specs.code.Selecting.{listed};
ghost use Rattle.tally.specs.Tally.{counts, tally};
ghost use Rattle.tally.specs.code.Meaning.{counts_of, tally_of, one, plus, Under};

use entries::{Cause, Selected};
use refusals::Refusal;
use trusted_list::Version;

// Kept entries and each of the four causes.
#[derive(Clone, Copy)]
pub struct Counts {
    pub kept: u32,
    pub long: u32,
    pub scheme: u32,
    pub facet: u32,
    pub label: u32,
}

// One entry more: kept, or discarded for a cause.
fn add(c: Counts, cause: Option<Cause>) -> Counts
    requires { Under 65536 c }
    ensures { counts_of result ≡ plus (counts_of c) (one cause) }
{
    match cause {
        None => Counts {
            kept: c.kept + 1,
            ..c
        },
        Some(Cause::TooLong) => Counts {
            long: c.long + 1,
            ..c
        },
        Some(Cause::OtherScheme) => Counts {
            scheme: c.scheme + 1,
            ..c
        },
        Some(Cause::NotFacet) => Counts {
            facet: c.facet + 1,
            ..c
        },
        Some(Cause::OtherLabel) => Counts {
            label: c.label + 1,
            ..c
        },
    }
}

// The entries of the list, one by one.
fn count_ids(list: &Selected) -> Counts
    ensures { counts_of result ≡ counts list.now.appid.now list.now.table.now (listed list.now) }
{
    let none = Counts {
        kept: 0,
        long: 0,
        scheme: 0,
        facet: 0,
        label: 0,
    };
    list.fold(none, &mut |c, cause, _entry| add(c, cause))
}

// Refusals as of cleaning, but for 15; or the counts.
pub fn tally(appid: &[u8], wanted: Version, body: &[u8], table: &[u8]) -> Result<Counts, Refusal>
    ensures { tally_of result ≡ tally appid.now wanted.major wanted.minor body.now table.now }
{
    let list = cleaning::prepare(appid, wanted, body, table)?;
    Ok(count_ids(&list))
}
