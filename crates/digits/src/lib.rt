// ASCII digits as numbers.
#![tactic(auto)]

ghost use Rattle.std.specs.Prelude.{◌≡◌, true, false, ◌-◌, ◌^◌, ◌≤◌, leb, if◌then◌else◌, MatchOption};
ghost use Rattle.digits.specs.Digits.{is_digit, number_at, fixed_at, fraction_at};

// What a digit writes; nothing for another byte.
fn digit(b: u8) -> Option<u32>
    ensures { MatchOption result (is_digit b ≡ false) (λ d. (is_digit b ≡ true) × (d ≡ b - 48) × (d ≤ 9)) }
{
    match b {
        b'0'..=b'9' => Some(u32::from(b - b'0')),
        _ => None,
    }
}

// What `len` digits that write `value` answer.
fn written(value: u32, len: usize) -> Option<(u32, usize)>
    ensures { result ≡ (if leb 1 len then Some (value, len) else None) }
{
    (1 <= len).then_some((value, len))
}

// All the digits at the front of `s`, one or more, as a number of at most `max`.
pub fn digits(s: &[u8], max: u32) -> Option<(u32, usize)>
    ensures { result ≡ number_at max s.now }
{
    let mut value = 0;
    for (i, b) in s.iter().enumerate() {
        let Some(d) = digit(*b) else {
            return written(value, i);
        };
        let wide = u64::from(value) * 10 + u64::from(d);
        if u64::from(max) < wide {
            return None;
        }
        value = wide as u32;
    }
    written(value, s.len())
}

// The first two bytes of `s`, which are digits. What stands after them does not matter.
pub fn two_digits(s: &[u8]) -> Option<(u32, usize)>
    ensures { result ≡ fixed_at 2 s.now }
{
    let [tens, ones, ..] = s else {
        return None;
    };
    let tens = digit(*tens)?;
    let ones = digit(*ones)?;
    Some((tens * 10 + ones, 2))
}

// The first four bytes of `s`, likewise.
pub fn four_digits(s: &[u8]) -> Option<(u32, usize)>
    ensures { result ≡ fixed_at 4 s.now }
{
    let (top, _) = two_digits(s)?;
    let (low, _) = two_digits(base::past(s, 2))?;
    Some((top * 100 + low, 4))
}

// How many nanoseconds a one is in the last place of a fraction of 0 to 9 digits.
const UNITS: [u32; 10] = [
    1_000_000_000,
    100_000_000,
    10_000_000,
    1_000_000,
    100_000,
    10_000,
    1_000,
    100,
    10,
    1,
];

// How many nanoseconds a one is in the last place of a fraction of `len` digits; from nine on a single one.
pub fn unit(len: usize) -> u32
    ensures { result ≡ 10 ^ (9 - len) }
{
    UNITS.get(len).copied().unwrap_or(1)
}

// How many digits a fraction of `len` bytes has, its point among them; one of no bytes has none.
pub fn after_point(len: usize) -> u32
    requires { len ≤ 10 }
    ensures { result ≡ len - 1 }
{
    len.saturating_sub(1) as u32
}

// All the digits at the front of `s`, from 1 to `most` of them, as nanoseconds.
pub fn fraction(s: &[u8], most: usize) -> Option<(u32, usize)>
    requires { most ≤ 9 }
    ensures { result ≡ fraction_at most s.now }
{
    let (value, len) = digits(s, 999_999_999)?;
    if most < len {
        return None;
    }
    Some((value * unit(len), len))
}
