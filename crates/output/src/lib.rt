// Writing into a lent output: a byte, a number, a text. Each answers the position after what it wrote.
#![tactic(auto)]

ghost use Rattle.std.specs.Prelude.{◌≡◌, [], ◌∷◌};
ghost use Rattle.output.specs.Output.{Wrote};
ghost use Rattle.output.specs.Fits.{Fits};
ghost use Rattle.output.specs.Numerals.{fixed, width, numeral};

// A byte.
pub fn put(out: &mut [u8], at: usize, b: u8) -> usize
    requires { Fits out.old at (b ∷ []) }
    ensures { Wrote out.old at (b ∷ []) result out.new }
{
    out[at] = b;
    at + 1
}

// The last `k` decimal digits of `n`, from the back.
pub fn put_fixed(out: &mut [u8], at: usize, k: usize, n: u32) -> usize
    requires { Fits out.old at (fixed k n) }
    ensures { Wrote out.old at (fixed k n) result out.new }
{
    let mut left = k;
    let mut rest = n;
    while 0 < left {
        left -= 1;
        out[at + left] = (48 + rest % 10) as u8;
        rest /= 10;
    }
    at + k
}

// A text.
pub fn put_text(out: &mut [u8], at: usize, text: &[u8]) -> usize
    requires { Fits out.old at text.now }
    ensures { Wrote out.old at text.now result out.new }
{
    let mut i = 0;
    while i < text.len() {
        out[at + i] = text[i];
        i += 1;
    }
    at + i
}

// How many digits `n` has.
pub fn digits_of(n: u32) -> usize
    ensures { result ≡ width n }
{
    if n < 10 {
        return 1;
    }
    if n < 100 {
        return 2;
    }
    if n < 1000 {
        return 3;
    }
    if n < 10000 {
        return 4;
    }
    if n < 100000 {
        return 5;
    }
    if n < 1000000 {
        return 6;
    }
    if n < 10000000 {
        return 7;
    }
    if n < 100000000 {
        return 8;
    }
    if n < 1000000000 {
        return 9;
    }
    10
}

// A number in as few digits as it has.
pub fn put_number(out: &mut [u8], at: usize, n: u32) -> usize
    requires { Fits out.old at (numeral n) }
    ensures { Wrote out.old at (numeral n) result out.new }
{
    put_fixed(out, at, digits_of(n), n)
}
