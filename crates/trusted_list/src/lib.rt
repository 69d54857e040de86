// The trusted facets list: one pass from a body's bytes to the selected ids, then entry after entry.
// The body is nested at most 16 deep (document 01, "The list"): `read_value 16` is the body, and each object or array
// that is open around a value leaves it one level less, down to 12 for a number of `version` and a string of `ids`.
#![tactic(auto)]

ghost use Rattle.std.proofs.Common.{rules};
ghost use Rattle.std.specs.Prelude.{◌≡◌, ◌≤◌, List, [], ◌∷◌, ℕ, ◌-◌};
ghost use Rattle.ascii.specs.Ascii.{Bytes, text};
ghost use Rattle.json_text.specs.code.Places.{read_at};
ghost use Rattle.json_values.specs.Json.{Json, listed, read_value};
ghost use Rattle.json_values.specs.code.Folds.{reading, Relates};
ghost use Rattle.trusted_list.specs.code.Entries.{first_entry, next_entry};
ghost use Rattle.trusted_list.specs.code.LevelFacts.{names_start, name_start, strings_start, listings_start, version_else, ids_else, listing_else, list_else, body_else};
ghost use Rattle.trusted_list.specs.code.Levels.{start, read_item, Closes, ElseSpoiled};
ghost use Rattle.trusted_list.specs.code.Slots.{Extends, Came, Name, Names, fill, first_filled, second_filled, version_of, ids_of, listing_of, earlier, NumberIs, VersionIs, IdsIs, ListingIs, ListIs, BodyIs, Strings, Listings, Answers};
ghost use Rattle.json_values.specs.declared.Kind.TheVariants.{Array, Object};
ghost use Rattle.json_values.specs.code.Kinds.{Item, opening, closing};

use json_values::Kind;
use refusals::Refusal;

// What the pass holds of a value that must have a shape: it did not come; it came and is good, with a number or a
// place; it came and is good, but not what is wanted; it came misshapen, or more than once.
// No Option or Result, which tell two apart: the level above judges each of the four in its own way. `fill` takes a value
// only after Absent, `earlier` only after Other, `listing_slot` tells Held from Other, and Spoiled spoils all.
// What is held is one number for each level: of a version's members their values, of ids their place, of a whole version nothing (0).
// A `usize` and no type parameter: a parameter would stand in every signature between, for three meanings of which each level has one.
#[derive(Clone, Copy)]
pub enum Slot {
    Absent,
    Held(usize),
    Other,
    Spoiled,
}

// What it holds for two names of an object.
#[derive(Clone, Copy)]
pub struct Two {
    pub first: Slot,
    pub second: Slot,
}

// A version: the wanted one, of which the list selects an object.
#[derive(Clone, Copy)]
pub struct Version {
    pub major: u16,
    pub minor: u16,
}

// A second member of one name spoils the first.
fn fill(x: Slot, y: Slot) -> Slot
    ensures { result ≡ fill x y }
{
    match x {
        Slot::Absent => y,
        _ => Slot::Spoiled, // a second one
    }
}

// What is held of two names, with a value of the first more, or of the second; none where the value is no JSON.
// Two functions, since a field is no argument.
fn fill_first(two: Two, read: Option<(usize, Slot)>) -> Option<(usize, Two)>
    ensures { result ≡ first_filled two read }
{
    let (j, y) = read?;
    let first = fill(two.first, y);
    let second = two.second;
    Some((j, Two { first, second }))
}

fn fill_second(two: Two, read: Option<(usize, Slot)>) -> Option<(usize, Two)>
    ensures { result ≡ second_filled two read }
{
    let (j, y) = read?;
    let first = two.first;
    let second = fill(two.second, y);
    Some((j, Two { first, second }))
}

// A number of `version`: written as digits only, at most 65535.
fn read_number(s: &[u8], from: usize) -> Option<(usize, Slot)>
    ensures { Relates (Came NumberIs) (read_at (read_value 12) s.now from) (reading result) }
{
    let j = json_values::skip_value(s, from, 12)?;
    let Some(n) = ascii::decimals::read_number(&s[from..j]) else {
        return Some((j, Slot::Spoiled));
    };
    Some((j, Slot::Held(usize::from(n))))
}

// ---- what stands between two brackets

// What is held before the first element: nothing in an array is wrong, no name of an object has come.
#[tactic(auto, unfolding(crate::specs::code::Levels::start))]
fn start(kind: Kind) -> Two
    ensures { result ≡ start kind }
{
    let first = match kind {
        Kind::Array => Slot::Other,
        Kind::Object => Slot::Absent,
    };
    let second = Slot::Absent;
    Two { first, second }
}

// One level of the body, an array or an object of some shape: how an element between its brackets is read, and what is
// found of the whole value by those that are held.
trait Level {
    ghost use Rattle.json_values.specs.declared.Kind.{Kind};
    ghost use Rattle.trusted_list.specs.declared.Slot.{Slot};
    ghost use Rattle.trusted_list.specs.declared.Two.{Two};

    ghost KIND: { Kind };

    ghost LEFT: { ℕ };

    // How what is held stands to the elements.
    ghost holds: { Self → Bytes → List (Item KIND) → Two → Type 0 };

    // How what is found stands to the value.
    ghost finds: { Self → Bytes → Json → Slot → Type 0 };

    const KIND: Kind;

    // How many arrays and objects may be open together in the value, itself among them.
    const LEFT: usize;

    // The place behind the element at a place, and what is held of it and those before it.
    fn item(&self, s: &[u8], at: usize, two: Two) -> Option<(usize, Two)>
        ensures { Relates (Extends (holds self.now s.now) two) (read_at (read_item KIND (LEFT - 1)) s.now at) (reading result) };

    // What is found of the value at a place, by what is held of all its elements.
    fn slot(&self, from: usize, two: Two) -> Slot
        ensures { Closes KIND LEFT from (holds self.now) two (finds self.now) result };

    ghost opens: { 1 ≤ LEFT };

    ghost starts: { (l : Self) (s : Bytes) → holds l s [] (start KIND) };

    ghost else_spoiled: { (l : Self) (s : Bytes) → ElseSpoiled KIND (finds l s) };
}

// What follows the opening bracket: element after element, with what is held of those before it.
fn walk<L: Level>(level: &L, s: &[u8], from: usize) -> Option<(usize, Two)>
    ensures { Relates (L.holds level.now s.now) (read_at (listed (read_item L.KIND (L.LEFT - 1)) (closing L.KIND ∷ [])) s.now from) (reading result) }
{
    let kind = L::KIND;
    json_values::fold_listed(
        s,
        from,
        kind.closing(),
        start(kind),
        |at: usize, two: Two| -> Option<(usize, Two)>
            ensures { Relates (Extends (L.holds level.entry.now s.entry.now) two) (read_at (read_item L.KIND (L.LEFT - 1)) s.entry.now at) (reading result) }
        { level.item(s, at, two) },
    )
}

// The value at a place: one of the level's kind by its elements; any other is skipped, and has not the shape.
fn read_level<L: Level>(level: &L, s: &[u8], from: usize) -> Option<(usize, Slot)>
    ensures { Relates (L.finds level.now s.now) (read_at (read_value L.LEFT) s.now from) (reading result) }
{
    if json_text::byte_at(s, from) == Some(L::KIND.opening()) {
        let (j, two) = walk(level, s, from + 1)?;
        let x = level.slot(from, two);
        return Some((j, x));
    }
    let j = json_values::skip_value(s, from, L::LEFT)?;
    Some((j, Slot::Spoiled))
}

// ---- `version`

// An object with `major` and `minor` once each, by its members.
#[derive(Drop)]
struct VersionMembers {
    wanted: Version,
}

impl Level for VersionMembers {
    ghost KIND = { Object };

    ghost LEFT = { 13 };

    ghost holds = { λ l s. Names (text "major") (text "minor") NumberIs NumberIs };

    ghost finds = { λ l s. Came (VersionIs l.wanted.major l.wanted.minor) };

    const KIND: Kind = Kind::Object;

    const LEFT: usize = 13;

    // Written out for each object: one function for two names takes eight arguments, two of them closures, and its call
    // is ten lines in the place of these eight.
    fn item(&self, s: &[u8], at: usize, two: Two) -> Option<(usize, Two)> {
        let k = json_values::skip_name(s, at)?;
        if json_text::decoding::is_name(s, at, b"major") {
            return fill_first(two, read_number(s, k));
        }
        if json_text::decoding::is_name(s, at, b"minor") {
            return fill_second(two, read_number(s, k));
        }
        let j = json_values::skip_value(s, k, 12)?;
        Some((j, two))
    }

    fn slot(&self, from: usize, two: Two) -> Slot {
        version_slot(two, self.wanted)
    }

    ghost opens = { Prim.search rules };

    ghost starts = { λ l s. names_start _ _ _ _ };

    ghost else_spoiled = { λ l s. version_else l.wanted.major l.wanted.minor };
}

// The version by its two numbers: Held where it is the wanted one.
fn version_slot(two: Two, wanted: Version) -> Slot
    ensures { result ≡ version_of wanted.major wanted.minor two.first two.second }
{
    let Slot::Held(m) = two.first else {
        return Slot::Spoiled;
    };
    let Slot::Held(n) = two.second else {
        return Slot::Spoiled;
    };
    if m != usize::from(wanted.major) {
        return Slot::Other;
    }
    if n != usize::from(wanted.minor) {
        return Slot::Other;
    }
    Slot::Held(0)
}

// ---- `ids`

// An array of strings, by its items; held by its place.
#[derive(Drop)]
struct IdsItems;

impl Level for IdsItems {
    ghost KIND = { Array };

    ghost LEFT = { 13 };

    ghost holds = { λ l s. Strings };

    ghost finds = { λ l s. Came (IdsIs s) };

    const KIND: Kind = Kind::Array;

    const LEFT: usize = 13;

    fn item(&self, s: &[u8], at: usize, two: Two) -> Option<(usize, Two)> {
        let Some(j) = json_text::strings::skip_ascii_string(s, at) else {
            return ids_value(s, at, two);
        };
        Some((j, two))
    }

    fn slot(&self, from: usize, two: Two) -> Slot {
        ids_slot(two.first, from)
    }

    ghost opens = { Prim.search rules };

    ghost starts = { λ l s. strings_start };

    ghost else_spoiled = { λ l s. ids_else s };
}

// Any value.
fn ids_value(s: &[u8], at: usize, two: Two) -> Option<(usize, Two)>
    ensures { Relates (Extends Strings two) (read_at (read_value 12) s.now at) (reading result) }
{
    let b = json_text::byte_at(s, at);
    let j = json_values::skip_value(s, at, 12)?;
    if b == Some(b'"') {
        return Some((j, two));
    }
    let first = Slot::Spoiled;
    let second = two.second;
    Some((j, Two { first, second }))
}

// The ids by their items: held by the place of their array, where all are strings.
fn ids_slot(x: Slot, from: usize) -> Slot
    ensures { result ≡ ids_of from x }
{
    match x {
        Slot::Other => Slot::Held(from),
        _ => Slot::Spoiled,
    }
}

// ---- an object of the list

// An object with `version` once and `ids` once, by its members.
#[derive(Drop)]
struct ListingMembers {
    wanted: Version,
}

impl Level for ListingMembers {
    ghost KIND = { Object };

    ghost LEFT = { 14 };

    ghost holds = { λ l s. Names (text "version") (text "ids") (VersionIs l.wanted.major l.wanted.minor) (IdsIs s) };

    ghost finds = { λ l s. ListingIs s l.wanted.major l.wanted.minor };

    const KIND: Kind = Kind::Object;

    const LEFT: usize = 14;

    fn item(&self, s: &[u8], at: usize, two: Two) -> Option<(usize, Two)> {
        let wanted = self.wanted;
        let k = json_values::skip_name(s, at)?;
        if json_text::decoding::is_name(s, at, b"version") {
            return fill_first(two, read_level(&VersionMembers { wanted }, s, k));
        }
        if json_text::decoding::is_name(s, at, b"ids") {
            return fill_second(two, read_level(&IdsItems, s, k));
        }
        let j = json_values::skip_value(s, k, 13)?;
        Some((j, two))
    }

    fn slot(&self, from: usize, two: Two) -> Slot {
        listing_slot(two)
    }

    ghost opens = { Prim.search rules };

    ghost starts = { λ l s. names_start _ _ _ _ };

    ghost else_spoiled = { λ l s. listing_else s l.wanted.major l.wanted.minor };
}

// The object by its two members: the place of its ids where its version is the wanted one.
fn listing_slot(two: Two) -> Slot
    ensures { result ≡ listing_of two.first two.second }
{
    let Slot::Held(p) = two.second else {
        return Slot::Spoiled;
    };
    match two.first {
        Slot::Held(_) => Slot::Held(p),
        Slot::Other => Slot::Other,
        _ => Slot::Spoiled,
    }
}

// ---- the list

// The first selected stays; what is misshapen spoils all.
fn earlier(x: Slot, y: Slot) -> Slot
    ensures { result ≡ earlier x y }
{
    match x {
        Slot::Other => y,
        Slot::Held(p) => match y {
            Slot::Held(_) => Slot::Held(p),
            Slot::Other => Slot::Held(p),
            _ => Slot::Spoiled,
        },
        _ => Slot::Spoiled,
    }
}

// An array of such objects, by its items.
#[derive(Drop)]
struct ListItems {
    wanted: Version,
}

impl Level for ListItems {
    ghost KIND = { Array };

    ghost LEFT = { 15 };

    ghost holds = { λ l s. Listings s l.wanted.major l.wanted.minor };

    ghost finds = { λ l s. Came (ListIs s l.wanted.major l.wanted.minor) };

    const KIND: Kind = Kind::Array;

    const LEFT: usize = 15;

    fn item(&self, s: &[u8], at: usize, two: Two) -> Option<(usize, Two)> {
        let wanted = self.wanted;
        let (j, y) = read_level(&ListingMembers { wanted }, s, at)?;
        let x = two.first;
        let first = earlier(x, y);
        let second = two.second;
        Some((j, Two { first, second }))
    }

    fn slot(&self, from: usize, two: Two) -> Slot {
        two.first
    }

    ghost opens = { Prim.search rules };

    ghost starts = { λ l s. listings_start s l.wanted.major l.wanted.minor };

    ghost else_spoiled = { λ l s. list_else s l.wanted.major l.wanted.minor };
}

// ---- the body

// An object with `trustedFacets` once, by its members.
#[derive(Drop)]
struct BodyMembers {
    wanted: Version,
}

impl Level for BodyMembers {
    ghost KIND = { Object };

    ghost LEFT = { 16 };

    ghost holds = { λ l s. Name (text "trustedFacets") (ListIs s l.wanted.major l.wanted.minor) };

    ghost finds = { λ l s. BodyIs s l.wanted.major l.wanted.minor };

    const KIND: Kind = Kind::Object;

    const LEFT: usize = 16;

    fn item(&self, s: &[u8], at: usize, two: Two) -> Option<(usize, Two)> {
        let wanted = self.wanted;
        let k = json_values::skip_name(s, at)?;
        if json_text::decoding::is_name(s, at, b"trustedFacets") {
            return fill_first(two, read_level(&ListItems { wanted }, s, k));
        }
        let j = json_values::skip_value(s, k, 15)?;
        Some((j, two))
    }

    fn slot(&self, from: usize, two: Two) -> Slot {
        two.first
    }

    ghost opens = { Prim.search rules };

    ghost starts = { λ l s. name_start _ _ };

    ghost else_spoiled = { λ l s. body_else s l.wanted.major l.wanted.minor };
}

// The refusal of a body for the wanted version, 9 (over 65,536 bytes) to 12; or the place of the selected ids.
pub fn select(body: &[u8], wanted: Version) -> Result<usize, Refusal>
    ensures { Answers wanted.major wanted.minor body.now result }
{
    if 65536 < body.len() {
        return Err(Refusal::LongList);
    }
    let i = json_text::skip_blanks(body, 0);
    let Some((j, x)) = read_level(&BodyMembers { wanted }, body, i) else {
        return Err(Refusal::Unreadable);
    };
    let k = json_text::skip_blanks(body, j);
    if k < body.len() {
        return Err(Refusal::Unreadable);
    }
    match x {
        Slot::Held(p) => Ok(p),
        Slot::Other => Err(Refusal::NoVersion),
        Slot::Absent => Err(Refusal::Misshapen),
        Slot::Spoiled => Err(Refusal::Misshapen),
    }
}

// ---- the selected entries, one by one

// The place of the first string of the ids at a place; None where there is none.
pub fn first_entry(body: &[u8], ids: usize) -> Option<usize>
    ensures { result ≡ first_entry body.now ids }
{
    if json_text::byte_at(body, ids) != Some(b'[') {
        return None;
    }
    let i = json_text::skip_blanks(body, ids + 1);
    if json_text::byte_at(body, i) == Some(b']') {
        return None;
    }
    Some(i)
}

// The place of the string behind one that ends at a place; None where it is the last.
pub fn next_entry(body: &[u8], end: usize) -> Option<usize>
    ensures { result ≡ next_entry body.now end }
{
    let k = json_text::skip_blanks(body, end);
    if json_text::byte_at(body, k) != Some(b',') {
        return None;
    }
    let i = json_text::skip_blanks(body, k + 1);
    Some(i)
}
