// Refusal 17: whether the fields handed in fit the grammar. The ids of the elements are compared elsewhere.
#![tactic(auto)]

ghost use Rattle.std.specs.Prelude.{◌≡◌, true, false, not, ◌&&◌, ◌+◌, ◌≤◌, eqb, length};
ghost use Rattle.base.specs.Choose.{is_at};
ghost use Rattle.base.specs.Runs.{run};
ghost use Rattle.base.specs.Texts.{text_at};
ghost use Rattle.record.specs.Params.{row_of};
ghost use Rattle.suits.specs.Suits.{record_suits};
ghost use Rattle.grammar.specs.Parse.{is_message};
ghost use Rattle.writes.specs.Fits.{digits_fit, class_fits, text_fits, message_fits};
ghost use Rattle.writes.specs.Writes.{part_in, stamp_in, record_in};
ghost use Rattle.fitting.specs.Heads.{byte_of, numbers_fit, names_fit, head_fits, row_fits};

use record::{Param, Timestamp};
use writes::{Handed, Part};

// A text of the lent text.
pub fn text_at(text: &[u8], start: usize, len: usize) -> &[u8]
    requires { start + len ≤ length text.now }
    ensures { result.now ≡ text_at text.now start len }
{
    let end = start + len;
    &text[start..end]
}

// How many bytes in front are printable; of a name, but for `=`, `]` and `"`.
#[tactic(auto, using(crate::proofs::Tests::run_laws))]
fn class_run(s: &[u8], name: bool) -> usize
    ensures { result ≡ run (byte_of name) s.now }
{
    for (i, &b) in s.iter().enumerate() {
        if !((33 <= b) & (b <= 126) & !(name & ((b == b'=') | (b == b']') | (b == b'"')))) {
            return i;
        }
    }
    s.len()
}

// Whether it is 1 to `most` such bytes.
pub fn class_fits(s: &[u8], most: usize, name: bool) -> bool
    ensures { result ≡ class_fits most (byte_of name) s.now }
{
    let n = s.len();
    1 <= n && n <= most && class_run(s, name) == n
}

// Whether it is such a text and not `-`.
fn text_fits(s: &[u8], most: usize) -> bool
    ensures { result ≡ (class_fits most (byte_of false) s.now && not (eqb (length s.now) 1 && is_at s.now 0 45)) }
{
    class_fits(s, most, false) & !((s.len() == 1) & base::is_at(s, 0, b'-'))
}

fn part_fits(text: &[u8], p: Part, most: usize) -> bool
    requires { p.start + p.len ≤ length text.now }
    ensures { result ≡ text_fits most (part_in text.now p) }
{
    p.present == 0 || text_fits(text_at(text, p.start, p.len), most)
}

// Whether it is a message of any bytes, or a byte order mark and then UTF-8.
fn is_message(m: &[u8]) -> bool
    ensures { result ≡ is_message m.now }
{
    !base::is_at(m, 0, 0xEF)
        || !base::is_at(m, 1, 0xBB)
        || !base::is_at(m, 2, 0xBF)
        || utf8::is_utf8(base::past(m, 3))
}

fn message_fits(text: &[u8], p: Part) -> bool
    requires { p.start + p.len ≤ length text.now }
    ensures { result ≡ message_fits (part_in text.now p) }
{
    p.present == 0 || is_message(text_at(text, p.start, p.len))
}

// The timestamp that is handed in.
pub fn stamp_in(h: Handed) -> Option<Timestamp>
    ensures { result ≡ stamp_in h }
{
    if h.stamped == 0 {
        return None;
    }
    Some(Timestamp {
        seconds: h.seconds,
        nanos: h.nanos,
        digits: h.digits,
        offset: h.offset,
    })
}

fn digits_fit(h: Handed) -> bool
    ensures { result ≡ digits_fit (stamp_in h) }
{
    h.stamped == 0 || h.digits <= 6
}

fn numbers_fit(h: Handed) -> bool
    ensures { result ≡ numbers_fit h }
{
    (h.priority <= 191) & ((1 <= h.version) & (h.version <= 999)) & digits_fit(h)
}

#[tactic(auto, using(crate::proofs::Tests::places_in))]
fn names_fit(text: &[u8], h: Handed) -> bool
    requires { record_suits text.now (record_in h) ≡ true }
    ensures { result ≡ names_fit text.now h }
{
    let host = h.host;
    let app = h.app;
    let procid = h.procid;
    let msgid = h.msgid;
    part_fits(text, host, 255)
        & part_fits(text, app, 48)
        & part_fits(text, procid, 128)
        & part_fits(text, msgid, 32)
}

// Whether all but the elements fits.
#[tactic(auto, using(crate::proofs::Tests::places_in), unfolding(crate::specs::Heads::head_fits))]
pub fn head_fits(text: &[u8], h: Handed) -> bool
    requires { record_suits text.now (record_in h) ≡ true }
    ensures { result ≡ head_fits text.now h }
{
    let message = h.message;
    numbers_fit(h) && names_fit(text, h) && message_fits(text, message)
}

// Whether a parameter fits: its name, and its value as UTF-8.
pub fn param_fits(text: &[u8], p: Param) -> bool
    requires name_len_in_bounds { p.name_start + p.name_len ≤ length text.now }
    requires value_len_in_bounds { p.value_start + p.value_len ≤ length text.now }
    ensures { result ≡ row_fits text.now (row_of p) }
{
    class_fits(text_at(text, p.name_start, p.name_len), 32, true)
        && utf8::is_utf8(text_at(text, p.value_start, p.value_len))
}
