// The check of a claimed reading: whether a strict record, counts and tables are the line's reading, from what was handed in, field after field.
#![tactic(auto)]

ghost use Rattle.std.specs.Prelude.{◌≡◌, true, ◌≤◌, ◌<◌, length};
ghost use Rattle.record.specs.Params.{rows};
ghost use Rattle.record.specs.Refusals.{refusal_number};
ghost use Rattle.layout.specs.Layout.{strict_word_count, strict_size};
ghost use Rattle.layout.specs.Incoming.{word_at};
ghost use Rattle.suits.specs.Suits.{place_suits};
ghost use Rattle.claims.specs.Claims.{Checks, checked_number, claim_in};
ghost use Rattle.checker.specs.Memory.{holds_strict, strict_at, first_refusal, ChecksBytes};
ghost use Rattle.checker.specs.Steps.{Comparing, data_end};
ghost use Rattle.claims.specs.Holds.{holds};

use record::{Param, Place, Refusal, StrictRecord};

// Where the line goes on behind the structured data, if header, elements and parameters are as claimed. The numbers of the parameters' elements never fall, so one walk
// over the parameters opens each element in its turn.
fn walk(
    line: &[u8],
    r: StrictRecord,
    element_count: usize,
    param_count: usize,
    elements: &[[usize; 2]],
    params: &[Param],
) -> Option<usize>
    requires { Comparing line.now r element_count param_count elements.now (rows params.now) }
    ensures { result ≡ data_end line.now r element_count param_count elements.now (rows params.now) }
{
    let ids = &elements[..element_count];
    let start = claim_header::header(line, r)?;
    let mut at = claim_data::first(line, start, ids)?;
    let mut open = 0;
    for p in &params[..param_count] {
        at = claim_data::turn(line, at, ids, open, *p)?;
        open = p.element;
    }
    claim_data::last(line, at, ids, open)
}

// Whether the claim holds, of a record, counts and tables that suit the line.
fn holds(
    line: &[u8],
    r: StrictRecord,
    element_count: usize,
    param_count: usize,
    elements: &[[usize; 2]],
    params: &[Param],
) -> bool
    requires { Comparing line.now r element_count param_count elements.now (rows params.now) }
    ensures { result ≡ holds line.now (claim_in r element_count param_count elements.now (rows params.now)) }
{
    let Some(end) = walk(line, r, element_count, param_count, elements, params) else {
        return false;
    };
    claim_data::ids_differ(line, &elements[..element_count])
        && claim_data::message_holds(line, end, r.has_message, r.common.message)
}

// Whether the place suits the line. (The sum may not fit.)
fn place_suits(line: &[u8], start: usize, len: usize) -> bool
    ensures { result ≡ place_suits line.now start len }
{
    start <= line.len() && len <= line.len() - start
}

// The service: whether record, counts and tables are the line's reading.
pub fn check(
    line: &[u8],
    r: StrictRecord,
    element_count: usize,
    param_count: usize,
    elements: &[[usize; 2]],
    params: &[Param],
) -> Result<(), Refusal>
    ensures { Checks line.now r element_count param_count elements.now (rows params.now) result }
{
    if record::LINE_LIMIT < line.len() {
        return Err(Refusal::LineTooLong);
    }
    if !suits::is_suitable(line, r.common, element_count, param_count, elements, params) {
        return Err(Refusal::Unsuitable);
    }
    if !place_suits(line, r.timestamp_text.start, r.timestamp_text.len) {
        return Err(Refusal::Unsuitable);
    }
    if !holds(line, r, element_count, param_count, elements, params) {
        return Err(Refusal::WrongClaim);
    }
    Ok(())
}

// ---- the strict record as bytes

// The words that the strict reader adds to a record: the place of the timestamp's text, and the mark of a message.
const TEXT_WORD: usize = layout::WORD_COUNT;

const MESSAGE_MARK_WORD: usize = TEXT_WORD + 3;

// Word `i` of a strict record, from the fifth on. `layout` reads those of a record, of which there are four less: the last ones are read in the part of the memory that
// ends with them.
fn strict_word(s: &[u8], i: usize) -> u64
    requires strict_size_in_bounds { strict_size ≤ length s.now }
    requires le_i { 4 ≤ i }
    requires i_lt_strict_word_count { i < strict_word_count }
    ensures { result ≡ word_at s.now i }
{
    layout::word_at(base::past(s, 32), i - 4)
}

// Whether the bytes hold a strict record.
#[tactic(auto, unfolding(crate::specs::Memory::holds_strict))]
fn holds_strict(s: &[u8]) -> bool
    ensures { result ≡ holds_strict s.now }
{
    layout::STRICT_SIZE <= s.len()
        && layout::holds_record(s)
        && strict_word(s, TEXT_WORD) < 2
        && strict_word(s, MESSAGE_MARK_WORD) < 2
}

// The strict record that bytes hold.
fn strict_at(s: &[u8]) -> StrictRecord
    requires { holds_strict s.now ≡ true }
    ensures { result ≡ strict_at s.now }
{
    StrictRecord {
        common: layout::record_at(s),
        timestamp_text: Place {
            present: strict_word(s, TEXT_WORD) == 1,
            start: strict_word(s, TEXT_WORD + 1) as usize,
            len: strict_word(s, TEXT_WORD + 2) as usize,
        },
        has_message: strict_word(s, MESSAGE_MARK_WORD) == 1,
    }
}

fn number_of(a: Result<(), Refusal>) -> u32
    ensures { result ≡ checked_number a }
{
    match a {
        Ok(()) => 0,
        Err(refusal) => u32::from(refusal),
    }
}

// The number where bytes hold no strict record.
fn unheld(len: usize) -> u32
    ensures { result ≡ refusal_number (first_refusal len) }
{
    u32::from(if record::LINE_LIMIT < len {
        Refusal::LineTooLong
    } else {
        Refusal::Unsuitable
    })
}

// The check of the strict record and the counts that the 248 bytes hold, with both tables: 0 if they are the line's reading, else why not.
pub fn khamdoriem_check_claim(
    line: &[u8],
    memory: &[u8],
    elements: &[[usize; 2]],
    params: &[Param],
) -> u32
    ensures { ChecksBytes line.now memory.now elements.now (rows params.now) result }
{
    if !holds_strict(memory) {
        return unheld(line.len());
    }
    let e = layout::element_count(memory);
    let p = layout::param_count(memory);
    number_of(check(line, strict_at(memory), e, p, elements, params))
}
