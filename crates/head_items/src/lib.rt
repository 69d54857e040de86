// The record item that a response head makes, and its Location text.
#![tactic(auto)]

ghost use Rattle.std.specs.Prelude.{◌≡◌, true, ◌≤◌, length, Some, Ok};
ghost use Rattle.response_head.specs.ResponseHead.{redirect, read_head};
ghost use Rattle.head_items.specs.code.Meaning.{has_room, redirect_item, WritesAnswer, Answers};

use refusals::Refusal;
use response_head::Head;

// The lengths of the item and of the Location text that are written.
#[derive(Clone, Copy)]
pub struct Lengths {
    pub item: usize,
    pub text: usize,
}

// A redirect that a head says, and the start of its Location in the lent text.
#[derive(Clone, Copy)]
struct Redirect<'a> {
    status: u16,
    authorized: bool,
    location: &'a [u8],
    start: u32,
    ghost small: { length location.now ≤ 65535 },
}

impl Redirect<'_> {
    // Its item and its Location fit into outputs of these lengths, and its start into 2 bytes.
    fn has_room(&self, item: usize, text: usize) -> bool
        ensures { result ≡ has_room self.now.start (length self.now.location.now) item text }
    {
        if item < 8 {
            return false;
        }
        if text < self.location.len() {
            return false;
        }
        self.start <= 65535
    }

    // Kind 1: status, authorized header seen, start and length of its Location.
    fn item(&self) -> [u8; 8]
        requires { self.now.start ≤ 65535 }
        ensures { result ≡ redirect_item self.now.status self.now.authorized self.now.start (length self.now.location.now) }
    {
        let status = self.status.to_be_bytes();
        // both fit: the start was tested by `has_room`, and the bound of the Location is in the type
        let start = (self.start as u16).to_be_bytes();
        let size = (self.location.len() as u16).to_be_bytes();
        [
            1,
            status[0],
            status[1],
            u8::from(self.authorized),
            start[0],
            start[1],
            size[0],
            size[1],
        ]
    }

    // Both written, where there is room.
    fn put(&self, item: &mut [u8], text: &mut [u8]) -> Lengths
        requires { has_room self.now.start (length self.now.location.now) (length item.old) (length text.old) ≡ true }
        ensures { Answers self.now.start (Some (redirect self.now.status self.now.authorized self.now.location.now)) item.old item.new text.old text.new (Ok result) }
    {
        normal_forms::write_bytes(&self.item(), item, 0);
        normal_forms::write_bytes(self.location, text, 0);
        Lengths {
            item: 8,
            text: self.location.len(),
        }
    }

    // The item and its Location text, or nothing where one of them or the start does not fit.
    fn write(&self, item: &mut [u8], text: &mut [u8]) -> Result<Lengths, Refusal>
        ensures { Answers self.now.start (Some (redirect self.now.status self.now.authorized self.now.location.now)) item.old item.new text.old text.new result }
    {
        if self.has_room(item.len(), text.len()) {
            return Ok(self.put(item, text));
        }
        Err(Refusal::Full)
    }
}

// Kind 2 and no Location text, or nothing where the item does not fit.
fn write_answer(status: u16, typed: bool, item: &mut [u8]) -> Result<Lengths, Refusal>
    ensures { WritesAnswer status typed item.old item.new result }
{
    if item.len() < 4 {
        return Err(Refusal::Full);
    }
    let status = status.to_be_bytes();
    let bytes = [2, status[0], status[1], u8::from(typed)];
    normal_forms::write_bytes(&bytes, item, 0);
    Ok(Lengths { item: 4, text: 0 })
}

// The item of a head, with start as the start of its Location in the lent text, and that Location from byte 0 of text.
// Refused: 16, a head not in this form or a redirect without its one Location; then 15. A refusal writes nothing.
pub fn head_item(
    head: &[u8],
    start: u32,
    item: &mut [u8],
    text: &mut [u8],
) -> Result<Lengths, Refusal>
    ensures { Answers start (read_head head.now) item.old item.new text.old text.new result }
{
    let Some(said) = response_head::read_head(head) else {
        return Err(Refusal::BadHead);
    };
    match said {
        Head::Answer { status, typed } => write_answer(status, typed, item),
        Head::Redirect {
            status,
            authorized,
            location,
        } => {
            let redirect = Redirect {
                status,
                authorized,
                location: location.of(head),
                start,
            };
            redirect.write(item, text)
        }
    }
}
