// White space, the length of a field, and trimming.
#![tactic(auto)]

ghost use Rattle.std.specs.Prelude.{◌≡◌, ◌&&◌, ◌||◌, [], ◌∷◌, ◌+◌, ◌-◌, ◌≤◌, ◌<◌, eqb, length, get_or, drop};
ghost use Rattle.base.specs.Choose.{within};
ghost use Rattle.white.specs.White.{is_white, white_len};
ghost use Rattle.white.specs.Before.{white_before};
ghost use Rattle.white.specs.Trim.{field_len, white_run, text_end, trimmed};

// A part of a text, from `start` up to `end`.
#[derive(Clone, Copy)]
pub struct Ends {
    pub start: usize,
    pub end: usize,
}

// Whether the byte of ASCII is white.
fn is_blank(b: u8) -> bool
    requires { b < 128 }
    ensures { result ≡ is_white b }
{
    ((9 <= b) & (b <= 13)) | (b == 32)
}

// Whether the two bytes are a white character: U+0085 or U+00A0.
fn white_pair(a: u8, b: u8) -> bool
    ensures { result ≡ eqb (white_len (a ∷ b ∷ [])) 2 }
{
    (a == 0xC2) & ((b == 0x85) | (b == 0xA0))
}

// Whether E2 and the two bytes are one, of General Punctuation: U+2000 to U+200A, U+2028, U+2029, U+202F or U+205F.
fn white_general(b: u8, c: u8) -> bool
    ensures { result ≡ eqb (white_len (0xE2 ∷ b ∷ c ∷ [])) 3 }
{
    if b == 0x80 {
        return ((0x80 <= c) & (c <= 0x8A)) | ((0xA8 <= c) & (c <= 0xA9)) | (c == 0xAF);
    }
    (b == 0x81) & (c == 0x9F)
}

// Whether the three bytes are one: U+1680, one of General Punctuation, or U+3000.
fn white_triple(a: u8, b: u8, c: u8) -> bool
    ensures { result ≡ eqb (white_len (a ∷ b ∷ c ∷ [])) 3 }
{
    match a {
        0xE1 => (b == 0x9A) & (c == 0x80),
        0xE2 => white_general(b, c),
        0xE3 => (b == 0x80) & (c == 0x80),
        _ => false,
    }
}

// Whether a white character of more than one byte begins with the byte.
fn begins_long(b: u8) -> bool
    ensures { result ≡ (eqb b 0xC2 || within 0xE1 0xE3 b) }
{
    (b == 0xC2) | ((0xE1 <= b) & (b <= 0xE3))
}

// What `white_len` answers where the first byte is not ASCII.
fn long_len(s: &[u8]) -> usize
    requires { 128 ≤ get_or s.now 0 0 }
    ensures { result ≡ white_len s.now }
{
    if s.len() < 2 {
        return 0;
    }
    if white_pair(s[0], s[1]) {
        return 2;
    }
    if s.len() < 3 {
        return 0;
    }
    if white_triple(s[0], s[1], s[2]) {
        return 3;
    }
    0
}

// The length in bytes of the white character at the front of `s`, or 0 where none stands there. ASCII is answered first.
pub fn white_len(s: &[u8]) -> usize
    ensures { result ≡ white_len s.now }
{
    if s.len() == 0 {
        return 0;
    }
    let b = s[0];
    if b < 128 {
        if is_blank(b) {
            return 1;
        }
        return 0;
    }
    if begins_long(b) {
        return long_len(s);
    }
    0
}

// Whether the four bytes from `i` on are ASCII above the space, so that none is white. All are asked, so that the compiler makes one test of them.
fn four_plain(s: &[u8], i: usize) -> bool
    requires { i + 4 ≤ length s.now }
    ensures { result ≡ (within 33 127 (get_or s.now i 0) && within 33 127 (get_or s.now (i + 1) 0) && within 33 127 (get_or s.now (i + 2) 0) && within 33 127 (get_or s.now (i + 3) 0)) }
{
    ((33 <= s[i]) & (s[i] <= 127))
        & ((33 <= s[i + 1]) & (s[i + 1] <= 127))
        & ((33 <= s[i + 2]) & (s[i + 2] <= 127))
        & ((33 <= s[i + 3]) & (s[i + 3] <= 127))
}

// How many bytes in front are such, by fours.
fn plain_front(s: &[u8]) -> usize
    ensures upper_bound { result ≤ length s.now }
    ensures s_value { field_len s.now ≡ result + field_len (drop result s.now) }
{
    let n = s.len();
    let mut i = 0;
    while 4 <= n - i {
        if !four_plain(s, i) {
            return i;
        }
        i += 4;
    }
    i
}

// How many bytes of `s` come before its first white character.
pub fn field_len(s: &[u8]) -> usize
    ensures { result ≡ field_len s.now }
{
    let mut i = plain_front(s);
    while i < s.len() {
        let w = white_len(&s[i..]);
        if w != 0 {
            return i;
        }
        i += 1;
    }
    i
}

// How many bytes the white characters at the front of `s` take.
pub fn white_run(s: &[u8]) -> usize
    ensures { result ≡ white_run s.now }
{
    let mut i = 0;
    while i < s.len() {
        let w = white_len(&s[i..]);
        if w == 0 {
            return i;
        }
        i += w;
    }
    i
}

// What `white_before` answers where the byte before place `end` is not ASCII.
fn long_before(s: &[u8], end: usize) -> usize
    requires { (0 < end) × (end ≤ length s.now) × (128 ≤ get_or s.now (end - 1) 0) }
    ensures { result ≡ white_before s.now end }
{
    if end < 2 {
        return 0;
    }
    if white_pair(s[end - 2], s[end - 1]) {
        return 2;
    }
    if end < 3 {
        return 0;
    }
    if white_triple(s[end - 3], s[end - 2], s[end - 1]) {
        return 3;
    }
    0
}

// The length of the white character that ends at place `end`, or 0 where none does. ASCII is answered first.
fn white_before(s: &[u8], end: usize) -> usize
    requires { (0 < end) × (end ≤ length s.now) }
    ensures { result ≡ white_before s.now end }
{
    let b = s[end - 1];
    if b < 128 {
        if is_blank(b) {
            return 1;
        }
        return 0;
    }
    long_before(s, end)
}

// Where the text ends, from its back: the first place after which there are white characters alone.
pub fn text_end(s: &[u8]) -> usize
    ensures { result ≡ text_end s.now }
{
    let mut end = s.len();
    while 0 < end {
        let w = white_before(s, end);
        if w == 0 {
            return end;
        }
        end -= w;
    }
    end
}

// The text without the white characters at both ends.
pub fn trim(s: &[u8]) -> Ends
    ensures { result ≡ trimmed s.now }
{
    let end = text_end(s);
    if end == 0 {
        return Ends { start: 0, end: 0 };
    }
    Ends {
        start: white_run(s),
        end,
    }
}
