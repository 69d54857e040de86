// The selected list, whose entries are read one after another.
ghost use Rattle.std.specs.Prelude.{◌≡◌, ◌≤◌, length};
ghost use Rattle.entries.specs.code.Owner.{Owned};
ghost use Rattle.entries.specs.code.Reading.{IdsThere, ReadsOf};

use crate::{Entries, Entry, read_entry};
use json_text::Decoded;
use label_lookup::Owner;

// The list that a body selects for an AppID, with what is held of the AppID's private label, none where it has none.
#[derive(Clone, Copy)]
pub struct Selected<'a> {
    pub appid: &'a [u8],
    pub owner: Option<Owner<'a>>,
    pub body: &'a [u8],
    pub ids: usize,
    pub table: &'a [u8],
    ghost owned: { ∥ Owned appid.now table.now owner ∥₁ },
    ghost there: { IdsThere body.now ids },
    ghost short: { length body.now ≤ 65536 },
}

impl Selected<'_> {
    ghost use Rattle.entries.specs.code.Selecting.{listed};
    ghost use Rattle.entries.specs.code.Walking.{Walk};

    // Its entries, one after another.
    pub fn entries(&self) -> Entries<'_>
        ensures { Walk self.now (listed self.now) result }
    {
        let next = trusted_list::first_entry(self.body, self.ids);
        Entries {
            list: self,
            last: Decoded::new(),
            next,
        }
    }

    // The entry at a place.
    pub fn read(&self, out: &mut Decoded, at: usize) -> Entry
        ensures { ReadsOf self.now.body.now at self.now.appid.now self.now.table.now out.new result }
    {
        read_entry(out, self.body, at, &self.owner, self.table)
    }

    // The body that it is selected from.
    pub fn body(&self) -> &[u8]
        ensures { result.now ≡ self.now.body.now }
    {
        self.body
    }
}
