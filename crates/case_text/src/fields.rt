// A case is a line of text: a letter, and fields after one space each, numbers in decimal, bytes in hexadecimal, `-` for no bytes.
ghost use Rattle.std.specs.Prelude.{◌≡◌, ◌≤◌, ◌<◌, length, drop, IfOk};

use case_calls::Settings;

// The answer is not what the case says, or the text is no case.
#[derive(Clone, Copy)]
pub struct Differs;

// The fields that are still to be read.
#[derive(Clone, Copy)]
pub struct Fields<'a> {
    pub rest: &'a [u8],
}

impl<'a> Fields<'a> {
    // Those behind the letter of a case.
    pub fn of(text: &'a [u8]) -> Fields<'a>
        ensures { result.rest.now ≡ drop 2 text.now }
    {
        match text {
            [_, _, rest @ ..] => Fields { rest },
            _ => Fields { rest: &[] },
        }
    }

    // A number in decimal. Where the next field is none, what is left starts with the byte that is no digit.
    pub fn number(&mut self) -> Result<u64, Differs> {
        let mut n = Err(Differs);
        loop {
            match self.rest {
                [] => return n,
                [b' ', rest @ ..] => {
                    self.rest = rest;
                    return n;
                }
                [digit @ b'0'..=b'9', rest @ ..] => {
                    n = Ok(with_digit(n.unwrap_or(0), *digit - b'0'));
                    self.rest = rest;
                }
                _ => return Err(Differs),
            }
        }
    }

    // Bytes, to the front of a lent buffer, and how many they are.
    pub fn bytes(&mut self, out: &mut [u8]) -> Result<usize, Differs>
        ensures stored { IfOk result (λ n. n ≤ length out.new) }
        ensures out_len_unchanged { length out.new ≡ length out.old }
    {
        let mut n = 0;
        loop {
            match self.rest {
                [] => return Ok(n),
                [b' ', rest @ ..] => {
                    self.rest = rest;
                    return Ok(n);
                }
                [b'-', rest @ ..] => self.rest = rest,
                [high, low, rest @ ..] if n < out.len() => {
                    out[n] = nibble(*high) * 16 + nibble(*low);
                    n += 1;
                    self.rest = rest;
                }
                _ => return Err(Differs),
            }
        }
    }

    // The settings of a loose reading: variant, year and offset.
    pub fn settings(&mut self) -> Settings {
        let variant = self.number().unwrap_or(0);
        let year = self.number().unwrap_or(0);
        let offset = self.number().unwrap_or(0);
        Settings {
            variant: low_half(variant),
            year: low_half(year),
            offset: offset_of(offset),
        }
    }

    // The next field has to be this number.
    pub(crate) fn expect(&mut self, wanted: u64) -> Result<(), Differs> {
        if self.number()? == wanted {
            Ok(())
        } else {
            Err(Differs)
        }
    }

    // There has to be nothing more.
    pub(crate) fn expect_end(&self) -> Result<(), Differs> {
        if self.rest.is_empty() {
            Ok(())
        } else {
            Err(Differs)
        }
    }
}

// The number with one digit more. What 64 bits do not hold is one of the last that they do.
fn with_digit(n: u64, digit: u8) -> u64
    requires { digit < 10 }
{
    let most = u64::MAX / 10;
    let d = u64::from(digit);
    if n < most {
        n * 10 + d
    } else {
        most * 10 + d % 6
    }
}

// A hexadecimal digit. The remainders change nothing of one, and make one of every other byte.
fn nibble(b: u8) -> u8
    ensures { result < 16 }
{
    if b.is_ascii_digit() {
        b % 16
    } else {
        (b % 16 + 9) % 16
    }
}

// The low 32 bits: no service takes a larger number.
pub(crate) fn low_half(n: u64) -> u32 {
    (n & 0xffff_ffff) as u32
}

// An offset in two's complement; what 32 bits do not hold is none.
fn offset_of(n: u64) -> i32 {
    i32::try_from(n.cast_signed()).unwrap_or(0)
}

// A number that is at most `most`.
pub fn up_to(n: u64, most: usize) -> usize
    ensures { result ≤ most }
{
    (n as usize).min(most)
}
