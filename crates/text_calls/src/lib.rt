// Printing and lookup over the C boundary.
#![tactic(auto)]

ghost use Rattle.std.specs.Prelude.{◌≡◌, true, false, MatchOption};
ghost use Rattle.record.specs.Answers.{output_answer_of};
ghost use Rattle.record.specs.Params.{rows};
ghost use Rattle.layout.specs.Incoming.{holds_record, record_at, element_count_at, param_count_at};
ghost use Rattle.exports.specs.Exports.{first_refusal, ServesPrint, ServesLookup};

use record::{OutputAnswer, Param, Record, Refusal};

// The record and both counts, where the bytes hold one.
fn held(memory: &[u8]) -> Option<(Record, usize, usize)>
    ensures { MatchOption result (holds_record memory.now ≡ false) (λ h. (holds_record memory.now ≡ true) × (h.0 ≡ record_at memory.now) × (h.1 ≡ element_count_at memory.now) × (h.2 ≡ param_count_at memory.now)) }
{
    if layout::holds_record(memory) {
        Some((
            layout::record_at(memory),
            layout::element_count(memory),
            layout::param_count(memory),
        ))
    } else {
        None
    }
}

// The refusal of bytes that hold no record.
fn first_refusal(len: usize, kind: u32) -> Refusal
    ensures { result ≡ first_refusal len kind }
{
    if record::LINE_LIMIT < len {
        Refusal::LineTooLong
    } else if 1 < kind {
        Refusal::BadSetting
    } else {
        Refusal::Unsuitable
    }
}

// What is answered where bytes hold no record.
fn unheld(len: usize, kind: u32) -> OutputAnswer
    ensures { result ≡ output_answer_of (Err (first_refusal len kind)) }
{
    record::output_answer_of(Err(first_refusal(len, kind)))
}

// Printing of the record that the 216 bytes hold: number and length.
pub fn khamdoriem_print(
    line: &[u8],
    memory: &[u8],
    elements: &[[usize; 2]],
    params: &[Param],
    output: &mut [u8],
) -> OutputAnswer
    ensures { ServesPrint line.now memory.now elements.now (rows params.now) output.old result output.new }
{
    let Some((r, e, p)) = held(memory) else {
        return unheld(line.len(), 0);
    };
    let w = message::print(line, r, e, p, elements, params, output);
    record::output_answer_of(w)
}

// Lookup in what a reader left: number and length.
pub fn khamdoriem_lookup(
    line: &[u8],
    memory: &[u8],
    elements: &[[usize; 2]],
    params: &[Param],
    id: &[u8],
    name: &[u8],
    kind: u32,
    output: &mut [u8],
) -> OutputAnswer
    ensures { ServesLookup line.now memory.now elements.now (rows params.now) id.now name.now kind output.old result output.new }
{
    let Some((r, e, p)) = held(memory) else {
        return unheld(line.len(), kind);
    };
    let w = lookup::lookup(line, r, e, p, elements, params, id, name, kind, output);
    record::output_answer_of(w)
}
