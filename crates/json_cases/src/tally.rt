// How many cases came out as expected, of how many.
use std::io;
use std::num::wrapping_add_u64;

#[derive(Clone, Copy)]
pub struct Tally {
    pub right: u64,
    pub all: u64,
}

impl Tally {
    pub fn none() -> Tally {
        Tally { right: 0, all: 0 }
    }

    // One case more.
    pub fn tell(self, as_expected: bool) -> Tally {
        Tally {
            right: wrapping_add_u64(self.right, u64::from(as_expected)),
            all: wrapping_add_u64(self.all, 1),
        }
    }

    pub fn print(self, rt: &impl Print, what: &[u8]) -> io::Result<()> {
        rt.write_all(what)?;
        println!(rt; ": {} of {} as expected", self.right, self.all)
    }
}
