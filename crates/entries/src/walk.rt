// The entries of a selected list, one after another.
ghost use Rattle.entries.specs.code.Reading.{Stands};

use crate::{Cause, Selected};
use json_text::Decoded;

// The entry that was read last, decoded, and where the next one stands. No iterator: its items would have to copy what is held. And
// `advance` does not hand out what is held: of a walk that its result borrows from, a clause would say nothing without a proof by hand.
#[derive(Drop)]
pub struct Entries<'a> {
    pub(crate) list: &'a Selected<'a>,
    pub(crate) last: Decoded,
    pub(crate) next: Option<usize>,
    ghost stands: { Stands list.now.body.now next },
}

impl<'a> Entries<'a> {
    ghost use Rattle.std.specs.Prelude.{◌≡◌, [], unwrap_or};
    ghost use Rattle.entries.specs.code.Walking.{Advances, held_of};

    // The next entry read: the cause for which it is discarded, none where it is kept. None behind the last one.
    pub fn advance(&mut self) -> Option<Option<Cause>>
        ensures { Advances self.old self.new result }
    {
        let at = self.next?;
        let entry = self.list.read(&mut self.last, at);
        self.next = entry.next;
        Some(entry.cause)
    }

    // The bytes of the entry that was read last, empty where it has more than 512: of a discarded entry nobody asks for them, so no Option.
    pub fn held(&self) -> &[u8]
        ensures { result.now ≡ unwrap_or (held_of self.now) [] }
    {
        self.last.held().unwrap_or(b"")
    }
}

impl Selected<'_> {
    ghost use Rattle.entries.specs.code.Folding.{MayFold, Folds};
    ghost use Rattle.entries.specs.code.Selecting.{listed};

    // What `turn` makes of the entries, one after another, from `start` on. It takes what it made of those before, the cause for which
    // the entry is discarded, none where it is kept, and what is held of it. It is lent, so that a caller knows what it leaves of what
    // it writes to.
    pub fn fold<A, F: FnMut(A, Option<Cause>, &[u8]) -> A>(&self, start: A, turn: &mut F) -> A
        requires callable { MayFold F.FnMut self.now turn.old start (listed self.now) }
        ensures { Folds F.FnMut self.now turn.old start (listed self.now) turn.new result }
    {
        let mut entries = self.entries();
        let mut made = start;
        while let Some(cause) = entries.advance() {
            made = turn(made, cause, entries.held());
        }
        made
    }
}
