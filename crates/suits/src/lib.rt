// Refusal 7: whether a record, counts and tables suit a line. Any numbers may come in.
#![tactic(auto)]

ghost use Rattle.std.specs.Prelude.{◌≡◌, ◌+◌, ◌≤◌, ◌<◌, leb, length, take};
ghost use Rattle.record.specs.Params.{row_of, rows};
ghost use Rattle.record.specs.declared.Refusal.TheVariants.{Unsuitable};
ghost use Rattle.suits.specs.Suits.{level_suits, fraction_suits, stamp_suits, record_suits, elements_suit, param_suits, params_suit, suits};

use record::{Param, Record, Refusal, Timestamp};

// Whether the place ends within `n` bytes. (The sum may not fit.)
fn place_suits(n: usize, start: usize, len: usize) -> bool
    ensures { result ≡ leb (start + len) n }
{
    start <= n && len <= n - start
}

fn level_suits(most: u8, level: Option<u8>) -> bool
    ensures { result ≡ level_suits most level }
{
    level.is_none_or(|n| n <= most)
}

// Whether the nanoseconds are less than a second and so many digits, at most nine, can show them.
fn fraction_suits(nanos: u32, digits: u32) -> bool
    ensures { result ≡ fraction_suits nanos digits }
{
    nanos <= 999_999_999 && digits <= 9 && nanos % digits::unit(digits as usize) == 0
}

fn time_suits(t: Timestamp) -> bool
    ensures { result ≡ stamp_suits (Some t) }
{
    fraction_suits(t.nanos, t.digits)
        && calendar::is_offset(t.offset)
        && calendar::is_shown(calendar::shown_at(t.seconds, t.offset))
}

fn stamp_suits(stamp: Option<Timestamp>) -> bool
    ensures { result ≡ stamp_suits stamp }
{
    match stamp {
        None => true,
        Some(t) => time_suits(t),
    }
}

fn record_suits(line: &[u8], r: Record) -> bool
    ensures { result ≡ record_suits line.now r }
{
    let n = line.len();
    let facility = r.facility;
    let severity = r.severity;
    let timestamp = r.timestamp;
    level_suits(23, facility)
        & level_suits(7, severity)
        & stamp_suits(timestamp)
        & place_suits(n, r.host.start, r.host.len)
        & place_suits(n, r.app.start, r.app.len)
        & place_suits(n, r.procid.start, r.procid.len)
        & place_suits(n, r.msgid.start, r.msgid.len)
        & place_suits(n, r.message.start, r.message.len)
}

// The places of the ids.
fn elements_suit(line: &[u8], elements: &[[usize; 2]]) -> bool
    ensures { result ≡ elements_suit line.now elements.now }
{
    for row in elements {
        if !place_suits(line.len(), row[0], row[1]) {
            return false;
        }
    }
    true
}

// A parameter whose element is one of `low` to `count` - 1; its places.
fn param_suits(line: &[u8], count: usize, low: usize, p: Param) -> bool
    ensures { result ≡ param_suits line.now count low (row_of p) }
{
    let n = line.len();
    low <= p.element
        && p.element < count
        && place_suits(n, p.name_start, p.name_len)
        && place_suits(n, p.value_start, p.value_len)
}

// Parameters of `count` elements, whose numbers do not fall.
fn params_suit(line: &[u8], count: usize, params: &[Param]) -> bool
    ensures { result ≡ params_suit line.now count 0 (rows params.now) }
{
    let mut low = 0;
    for p in params {
        if !param_suits(line, count, low, *p) {
            return false;
        }
        low = p.element;
    }
    true
}

// Whether record, counts and tables suit the line: if not, the call is refused with 7.
pub fn is_suitable(
    line: &[u8],
    r: Record,
    element_count: usize,
    param_count: usize,
    elements: &[[usize; 2]],
    params: &[Param],
) -> bool
    ensures { result ≡ suits line.now r element_count param_count elements.now (rows params.now) }
{
    if elements.len() < element_count {
        return false;
    }
    if params.len() < param_count {
        return false;
    }
    if !record_suits(line, r) {
        return false;
    }
    elements_suit(line, &elements[..element_count])
        && params_suit(line, element_count, &params[..param_count])
}

// The answer where they do not suit.
pub fn unsuitable() -> Result<usize, Refusal>
    ensures { result ≡ Err Unsuitable }
{
    Err(Refusal::Unsuitable)
}
