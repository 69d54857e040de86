// Numbers in base ten.
ghost use Rattle.std.specs.Prelude.{◌≡◌, true, ◌+◌, ◌<◌};
ghost use Rattle.ascii.specs.Ascii.{is_digit, number16};
ghost use Rattle.ascii.specs.code.Numbers.{DigitIs, Writes};

// The number that s writes: one or more digits and nothing else, at most 65535 (document 01, of a port, `major` and `minor`).
pub fn read_number(s: &[u8]) -> Option<u16>
    ensures { result ≡ number16 s.now }
{
    if s.is_empty() {
        return None;
    }
    let mut n: u16 = 0;
    for b in s {
        if !crate::is_digit(*b) {
            return None;
        }
        n = n.checked_mul(10)?.checked_add(digit_value(*b))?;
    }
    Some(n)
}

// The value of a digit.
fn digit_value(b: u8) -> u16
    requires { is_digit b ≡ true }
    ensures { DigitIs b result }
{
    u16::from(b - b'0')
}

// The digits of a number, at the front of the array: there is no heap.
#[derive(Clone, Copy)]
pub struct Decimal {
    pub digits: [u8; 5],
    pub len: usize,
}

fn digit(n: u16) -> u8
    requires { n < 10 }
    ensures { result ≡ 48 + n }
{
    // a number below ten: `try_from` would need an answer for others
    b'0' + n as u8
}

// The digits of n, without leading zeros.
pub fn write_number(n: u16) -> Decimal
    ensures { Writes n result }
{
    let tens = n / 10;
    let hundreds = tens / 10;
    let thousands = hundreds / 10;
    let a = digit(n % 10);
    if n < 10 {
        return Decimal {
            digits: [a, 0, 0, 0, 0],
            len: 1,
        };
    }
    let b = digit(tens % 10);
    if tens < 10 {
        return Decimal {
            digits: [b, a, 0, 0, 0],
            len: 2,
        };
    }
    let c = digit(hundreds % 10);
    if hundreds < 10 {
        return Decimal {
            digits: [c, b, a, 0, 0],
            len: 3,
        };
    }
    let d = digit(thousands % 10);
    if thousands < 10 {
        return Decimal {
            digits: [d, c, b, a, 0],
            len: 4,
        };
    }
    let e = digit(thousands / 10);
    Decimal {
        digits: [e, d, c, b, a],
        len: 5,
    }
}
