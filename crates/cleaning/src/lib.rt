// Cleaning: what is refused, the length of the list, its bytes.
#![tactic(auto)]

ghost use Rattle.std.specs.Prelude.{◌≡◌, ◌+◌, ◌≤◌, length, true, leb};
ghost use Rattle.origin.specs.Origin.{normal_form};
ghost use Rattle.normal_forms.specs.code.Writing.{Puts};
ghost use Rattle.ascii.specs.Ascii.{decimal};
ghost use Rattle.cleaning.specs.Clean.{fitting, clean};
ghost use Rattle.cleaning.specs.code.Meaning.{ListedAs, Prepares, names_of, list_of, opening, id_text, ids_text, IdPuts, list_head, Cleans};

use entries::Selected;
use normal_forms::Writer;
use refusals::Refusal;
use trusted_list::Version;

// ---- before the list is written

// Refusals 2, 3 and 9 to 13; or the list that is selected.
pub fn prepare<'a>(
    appid: &'a [u8],
    wanted: Version,
    body: &'a [u8],
    table: &'a [u8],
) -> Result<Selected<'a>, Refusal>
    ensures { Prepares appid.now wanted.major wanted.minor body.now table.now result }
{
    let Some(url) = entries::read_appid(appid)? else {
        return Err(Refusal::ForeignAppId);
    };
    entries::select(url, body, wanted, table)
}

// ---- the length of the ids

// What a kept entry adds to the length of the ids: its normal form, two quotation marks, and a comma unless it is the first.
fn id_length(first: bool, entry: &[u8]) -> usize
    requires { length entry.now ≤ 512 }
    ensures { result ≡ length (id_text first (normal_form entry.now)) }
{
    let n = normal_forms::normal_length(entry);
    if first {
        return n + 2;
    }
    n + 3
}

// The length of the ids as they are written.
fn ids_length(list: &Selected) -> usize
    ensures { result ≡ length (ids_text true (names_of list.now)) }
{
    let mut add = |n, cause, entry: &[u8]| match cause {
        None => n + id_length(n == 0, entry),
        Some(_) => n,
    };
    list.fold(0, &mut add)
}

// ---- the bytes of the ids

// What stands before an id.
fn write_opening(first: bool, to: &mut Writer)
    ensures { Puts (opening first) to.old to.new }
{
    if first {
        to.write(b"\"");
        return;
    }
    to.write(b",\"");
}

// The id of an entry.
fn write_id(first: bool, entry: &[u8], to: &mut Writer)
    ensures { IdPuts first entry.now to.old to.new }
{
    write_opening(first, to);
    to.write_normal(entry);
    to.write(b"\"");
}

// The ids.
fn write_ids(list: &Selected, to: &mut Writer)
    requires { to.old.at + length (ids_text true (names_of list.now)) ≤ length to.old.out.now }
    ensures { Puts (ids_text true (names_of list.now)) to.old to.new }
{
    let mut write = |first, cause, entry: &[u8]| match cause {
        None => {
            write_id(first, entry, to);
            false
        }
        Some(_) => first,
    };
    list.fold(true, &mut write);
}

// ---- the whole list

fn decimal_length(n: u16) -> usize
    ensures { (result ≡ length (decimal n)) × (result ≤ 5) }
{
    let d = ascii::decimals::write_number(n);
    d.len
}

// The list goes into so many bytes. It is never longer than the body.
fn has_room(list: &Selected, wanted: Version, room: usize) -> bool
    requires { ListedAs wanted.major wanted.minor list.now }
    ensures { result ≡ leb (length (list_of wanted.major wanted.minor list.now)) room }
{
    if list.body().len() <= room {
        return true;
    }
    let n = ids_length(list);
    let a = decimal_length(wanted.major);
    let b = decimal_length(wanted.minor);
    // 56 bytes of the head beside its two numbers, and 4 of the end
    n + a + b + 60 <= room
}

// A number.
fn write_decimal(n: u16, to: &mut Writer)
    ensures { Puts (decimal n) to.old to.new }
{
    let d = ascii::decimals::write_number(n);
    let k = d.len;
    let digits = d.digits;
    to.write(&digits[0..k]);
}

// What stands before the ids.
fn write_head(wanted: Version, to: &mut Writer)
    requires { to.old.at + length (list_head wanted.major wanted.minor) ≤ length to.old.out.now }
    ensures { Puts (list_head wanted.major wanted.minor) to.old to.new }
{
    to.write(b"{\"trustedFacets\":[{\"version\":{\"major\":");
    write_decimal(wanted.major, to);
    to.write(b",\"minor\":");
    write_decimal(wanted.minor, to);
    to.write(b"},\"ids\":[");
}

// Refusal 15 before any byte is written; or the list, and its length.
fn write_list(list: &Selected, wanted: Version, out: &mut [u8]) -> Result<usize, Refusal>
    requires { ListedAs wanted.major wanted.minor list.now }
    ensures { Cleans out.old out.new (fitting (length out.old) (list_of wanted.major wanted.minor list.now)) result }
{
    if has_room(list, wanted, out.len()) {
        let mut to = Writer { out, at: 0 };
        write_head(wanted, &mut to);
        write_ids(list, &mut to);
        to.write(b"]}]}");
        return Ok(to.at);
    }
    Err(Refusal::Full)
}

// A refusal; or the list is written, and this is its length.
pub fn clean(
    appid: &[u8],
    wanted: Version,
    body: &[u8],
    table: &[u8],
    out: &mut [u8],
) -> Result<usize, Refusal>
    ensures { Cleans out.old out.new (clean appid.now wanted.major wanted.minor body.now table.now out.old) result }
{
    let list = prepare(appid, wanted, body, table)?;
    write_list(&list, wanted, out)
}
