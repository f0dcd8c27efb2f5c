// parsers.rs: the fields of a header, each from the part of the line that starts at the current position; and steps of a reader.
#![tactic(auto)]

ghost use Rattle.std.specs.Prelude.{◌≡◌, ◌+◌, ◌^◌, ◌≤◌, ◌<◌, length};
ghost use Rattle.base.specs.Runs.{run};
ghost use Rattle.parsers.specs.Parsers.{alone, or_absent, plain_at, host_at, tag_len, tag_at};
ghost use Rattle.parsers.specs.Steps.{is_blank, blanks_from, some_blanks_from, byte_from, colon_from, is_inside, moved, number_from, placed, plain_from, host_from, tag_from};
ghost use Rattle.parsers.specs.Passed.{digits_passed, text_passed};

use record::Place;

// A text at the front of a part: its length, and how many bytes are passed.
#[derive(Clone, Copy)]
pub enum Text {
    Fails,
    Absent(usize),
    Given(usize, usize),
}

// Whether the field of `n` bytes is the one byte `b`.
fn is_alone(s: &[u8], n: usize, b: u8) -> bool
    requires { 0 < b }
    ensures { result ≡ alone s.now n b }
{
    (n == 1) & base::is_at(s, 0, b)
}

// A field of `n` bytes: `-` is absent.
fn or_absent(s: &[u8], n: usize) -> Text
    ensures { result ≡ or_absent s.now n }
{
    if is_alone(s, n, b'-') {
        Text::Absent(n)
    } else {
        Text::Given(n, n)
    }
}

// App name, process id, message id.
#[tactic(auto, unfolding(crate::specs::Parsers::plain_at))]
pub fn plain_at(s: &[u8]) -> Text
    ensures { result ≡ plain_at s.now }
{
    let n = white::field_len(s);
    if n == 0 || is_alone(s, n, b':') {
        Text::Fails
    } else {
        or_absent(s, n)
    }
}

// A host that ends in `:` gives the text before it; the colon is not consumed.
#[tactic(auto, unfolding(crate::specs::Parsers::host_at))]
pub fn host_at(s: &[u8]) -> Text
    ensures { result ≡ host_at s.now }
{
    let n = white::field_len(s);
    if n == 0 || is_alone(s, n, b':') {
        Text::Fails
    } else if base::is_at(s, n - 1, b':') {
        Text::Given(n - 1, n - 1)
    } else {
        or_absent(s, n)
    }
}

// How many bytes of `s` come before its first white character or `:`. ASCII above the space is not asked for white.
#[tactic(auto, using(crate::proofs::Texts::walk_laws))]
pub fn tag_len(s: &[u8]) -> usize
    ensures { result ≡ tag_len s.now }
{
    for (i, b) in s.iter().enumerate() {
        if *b == b':' || !base::in_range(33, 127, *b) && white::white_len(base::past(s, i)) != 0 {
            return i;
        }
    }
    s.len()
}

#[tactic(auto, unfolding(crate::specs::Parsers::tag_at))]
pub fn tag_at(s: &[u8]) -> Text
    ensures { result ≡ tag_at s.now }
{
    let n = tag_len(s);
    if n == 0 { Text::Fails } else { or_absent(s, n) }
}

fn is_blank(b: u8) -> bool
    ensures { result ≡ is_blank b }
{
    (b == b' ') | (b == b'\t')
}

// The position after the blanks at `at`, of which there may be none. (By index: behind a chain the value of a parameter costs three instructions a byte more.)
pub fn blanks_from(s: &[u8], at: usize) -> usize
    requires { at ≤ length s.now }
    ensures { result ≡ blanks_from s.now at }
{
    let mut i = at;
    while i < s.len() {
        if !is_blank(s[i]) {
            return i;
        }
        i += 1;
    }
    i
}

// The same, where there is at least one.
#[tactic(auto, using(crate::proofs::Steps::some_laws))]
pub fn some_blanks_from(s: &[u8], at: usize) -> Option<usize>
    requires { at ≤ length s.now }
    ensures { result ≡ some_blanks_from s.now at }
{
    let next = blanks_from(s, at);
    if next == at { None } else { Some(next) }
}

// The position after the byte `b`.
#[tactic(auto, unfolding(crate::specs::Steps::byte_from))]
pub fn byte_from(s: &[u8], at: usize, b: u8) -> Option<usize>
    requires { 0 < b }
    ensures { result ≡ byte_from s.now at b }
{
    if base::is_at(s, at, b) {
        Some(at + 1)
    } else {
        None
    }
}

// The position after an optional `:`.
pub fn colon_from(s: &[u8], at: usize) -> usize
    ensures { result ≡ colon_from s.now at }
{
    if base::is_at(s, at, b':') { at + 1 } else { at }
}

fn is_inside(b: u8) -> bool
    ensures { result ≡ is_inside b }
{
    b != b']'
}

// How many bytes of `s` come before its first `]`. (By index: a chain costs an instruction a byte more.)
pub fn inside_run(s: &[u8]) -> usize
    ensures { result ≡ run is_inside s.now }
{
    let mut i = 0;
    while i < s.len() {
        if !is_inside(s[i]) {
            return i;
        }
        i += 1;
    }
    i
}

// Digits that were read at `at`, as a number and the position after it.
pub fn moved(at: usize, n: Option<(u32, usize)>) -> Option<(u32, usize)>
    requires { at + digits_passed n < 2 ^ 64 }
    ensures { result ≡ moved at n }
{
    let (value, len) = n?;
    Some((value, at + len))
}

// The digits at `at`, as a number within 32 bits.
#[tactic(auto, using(crate::proofs::Steps::number_laws))]
pub fn number_from(s: &[u8], at: usize) -> Option<(u32, usize)>
    requires { at ≤ length s.now }
    ensures { result ≡ number_from s.now at }
{
    moved(at, digits::digits(base::past(s, at), 0xFFFF_FFFF))
}

// A text that was read at `at`, as a place of the line.
fn placed(at: usize, t: Text) -> Option<(Place, usize)>
    requires { at + text_passed t < 2 ^ 64 }
    ensures { result ≡ placed at t }
{
    match t {
        Text::Fails => None,
        Text::Absent(n) => Some((record::absent(), at + n)),
        Text::Given(len, n) => Some((record::place_at(at, len), at + n)),
    }
}

#[tactic(auto, using(crate::proofs::Fields::field_laws))]
pub fn plain_from(s: &[u8], at: usize) -> Option<(Place, usize)>
    requires { at ≤ length s.now }
    ensures { result ≡ plain_from s.now at }
{
    placed(at, plain_at(base::past(s, at)))
}

#[tactic(auto, using(crate::proofs::Fields::field_laws))]
pub fn host_from(s: &[u8], at: usize) -> Option<(Place, usize)>
    requires { at ≤ length s.now }
    ensures { result ≡ host_from s.now at }
{
    placed(at, host_at(base::past(s, at)))
}

#[tactic(auto, using(crate::proofs::Fields::field_laws))]
pub fn tag_from(s: &[u8], at: usize) -> Option<(Place, usize)>
    requires { at ≤ length s.now }
    ensures { result ≡ tag_from s.now at }
{
    placed(at, tag_at(base::past(s, at)))
}
