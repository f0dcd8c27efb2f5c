// UTF-8: what a lead byte asks for, the character at the front of a part, and whether a text is UTF-8.
#![tactic(auto)]

ghost use Rattle.std.specs.Prelude.{◌≡◌, true, ◌+◌, ◌≤◌, ltb, length};
ghost use Rattle.base.specs.Runs.{eight};
ghost use Rattle.utf8.specs.Lead.{lead_of, char_len, is_utf8};
ghost use Rattle.utf8.specs.Onward.{Onward};

// What a lead byte asks for: the length of its character in bytes (0: it begins none), and the range of the byte after it.
#[derive(Clone, Copy)]
pub struct Lead {
    pub len: usize,
    pub low: u8,
    pub high: u8,
}

fn asks(len: usize, low: u8, high: u8) -> Lead
    ensures { result ≡ record { len = len; low = low; high = high } }
{
    Lead { len, low, high }
}

// RFC 3629's ranges, ASCII first.
pub fn lead_of(b: u8) -> Lead
    ensures { result ≡ lead_of b }
{
    match b {
        0x00..=0x7F => asks(1, 0, 0),
        0xC2..=0xDF => asks(2, 0x80, 0xBF),
        0xE0 => asks(3, 0xA0, 0xBF),
        0xE1..=0xEC => asks(3, 0x80, 0xBF),
        0xED => asks(3, 0x80, 0x9F),
        0xEE..=0xEF => asks(3, 0x80, 0xBF),
        0xF0 => asks(4, 0x90, 0xBF),
        0xF1..=0xF3 => asks(4, 0x80, 0xBF),
        0xF4 => asks(4, 0x80, 0x8F),
        _ => asks(0, 0, 0),
    }
}

// The length in bytes of the character at the front of `s`, or 0 where none stands there.
pub fn char_len(s: &[u8]) -> usize
    ensures { result ≡ char_len s.now }
{
    if s.len() == 0 {
        return 0;
    }
    let l = lead_of(s[0]);
    let n = l.len;
    if n == 0 {
        return 0;
    }
    if s.len() < n {
        return 0;
    }
    if n == 1 {
        return 1;
    }
    if !base::in_range(l.low, l.high, s[1]) {
        return 0;
    }
    if n == 2 {
        return 2;
    }
    if !base::in_range(0x80, 0xBF, s[2]) {
        return 0;
    }
    if n == 3 {
        return 3;
    }
    if !base::in_range(0x80, 0xBF, s[3]) {
        return 0;
    }
    n
}

// Whether the eight bytes from `i` on are ASCII. All eight are looked at, so that the compiler makes one test of them.
fn eight_ascii(s: &[u8], i: usize) -> bool
    requires { i + 8 ≤ length s.now }
    ensures { result ≡ eight (λ x. ltb x 128) s.now i }
{
    (s[i] < 0x80)
        & (s[i + 1] < 0x80)
        & (s[i + 2] < 0x80)
        & (s[i + 3] < 0x80)
        & (s[i + 4] < 0x80)
        & (s[i + 5] < 0x80)
        & (s[i + 6] < 0x80)
        & (s[i + 7] < 0x80)
}

// The same of thirty-two, and of a hundred and twenty-eight: the more there are, the less each costs.
fn many_ascii(s: &[u8], i: usize) -> bool
    requires { i + 32 ≤ length s.now }
    ensures { result ≡ true → Onward s.now i (i + 32) }
{
    eight_ascii(s, i) & eight_ascii(s, i + 8) & eight_ascii(s, i + 16) & eight_ascii(s, i + 24)
}

fn most_ascii(s: &[u8], i: usize) -> bool
    requires { i + 128 ≤ length s.now }
    ensures { result ≡ true → Onward s.now i (i + 128) }
{
    many_ascii(s, i) & many_ascii(s, i + 32) & many_ascii(s, i + 64) & many_ascii(s, i + 96)
}

// Past ASCII from `at` on, by so many bytes at a time: each asks for more only behind what it has found itself.
fn past_most(s: &[u8], at: usize) -> usize
    requires { at ≤ length s.now }
    ensures { Onward s.now at result }
{
    let n = s.len();
    let mut i = at;
    while 128 <= n - i {
        if !most_ascii(s, i) {
            return i;
        }
        i += 128;
    }
    i
}

fn past_many(s: &[u8], at: usize) -> usize
    requires { at ≤ length s.now }
    ensures { Onward s.now at result }
{
    let n = s.len();
    let mut i = at;
    while 32 <= n - i {
        if !many_ascii(s, i) {
            return i;
        }
        i = past_most(s, i + 32);
    }
    i
}

fn past_eight(s: &[u8], at: usize) -> usize
    requires { at ≤ length s.now }
    ensures { Onward s.now at result }
{
    let n = s.len();
    let mut i = at;
    while 8 <= n - i {
        if !eight_ascii(s, i) {
            return i;
        }
        i = past_many(s, i + 8);
    }
    i
}

fn past_one(s: &[u8], at: usize) -> usize
    requires { at ≤ length s.now }
    ensures { Onward s.now at result }
{
    let mut i = at;
    while i < s.len() {
        if 0x80 <= s[i] {
            return i;
        }
        i += 1;
    }
    i
}

// Past all ASCII from `at` on. A single byte of it between characters, a space, is not worth asking for eight.
fn past_ascii(s: &[u8], at: usize) -> usize
    requires { at ≤ length s.now }
    ensures { Onward s.now at result }
{
    if s.len() <= at {
        return at;
    }
    if 0x80 <= s[at] {
        return at;
    }
    past_one(s, past_eight(s, at))
}

// Whether a character of two bytes stands in front, or one of three as most of them are: U+1000 to U+CFFF.
fn is_two(s: &[u8]) -> bool
    ensures { result ≡ true → 2 ≡ char_len s.now }
{
    if s.len() < 2 {
        return false;
    }
    base::in_range(0xC2, 0xDF, s[0]) & base::in_range(0x80, 0xBF, s[1])
}

fn is_three(s: &[u8]) -> bool
    ensures { result ≡ true → 3 ≡ char_len s.now }
{
    if s.len() < 3 {
        return false;
    }
    base::in_range(0xE1, 0xEC, s[0])
        & base::in_range(0x80, 0xBF, s[1])
        & base::in_range(0x80, 0xBF, s[2])
}

// What `char_len` answers, the most frequent first.
fn wide_len(s: &[u8]) -> usize
    ensures { result ≡ char_len s.now }
{
    if is_two(s) {
        return 2;
    }
    if is_three(s) {
        return 3;
    }
    char_len(s)
}

// Whether the text is UTF-8: past ASCII by many bytes at a time, and past the rest a character at a time.
pub fn is_utf8(s: &[u8]) -> bool
    ensures { result ≡ is_utf8 s.now }
{
    let mut i = 0;
    while i < s.len() {
        if s[i] < 0x80 {
            i = past_ascii(s, i + 1);
        } else {
            let n = wide_len(base::past(s, i));
            if n == 0 {
                return false;
            }
            i += n;
        }
    }
    true
}
