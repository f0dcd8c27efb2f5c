// Loose reading over the C boundary.
#![tactic(auto)]

ghost use Rattle.std.specs.Prelude.{◌≡◌, ◌≤◌, length};
ghost use Rattle.record.specs.Answers.{read_answer_of};
ghost use Rattle.record.specs.Params.{rows};
ghost use Rattle.layout.specs.Layout.{record_size};
ghost use Rattle.exports.specs.Exports.{short_answer, LeavesLoose};
ghost use Rattle.exports.specs.Steps.{Left};

use record::{Param, ReadAnswer, Reading, Refusal};

// What is answered where the record's memory is too short: that refusal in place of a reading.
fn short(r: Result<Reading, Refusal>) -> ReadAnswer
    ensures { result ≡ short_answer (read_answer_of r) }
{
    record::read_answer_of(r.and(Err(Refusal::OutputShort)))
}

// What is answered, and the record in `memory` where the number is 0.
fn leave(r: Result<Reading, Refusal>, memory: &mut [u8]) -> ReadAnswer
    requires { record_size ≤ length memory.old }
    ensures { Left r memory.old result memory.new }
{
    let (reading, elements, params, whole) = match r {
        Ok(Reading::Read(reading, elements, params)) => (reading, elements, params, 0),
        Ok(Reading::Whole(reading)) => (reading, 0, 0, 1),
        Err(_) => return record::read_answer_of(r),
    };
    layout::put_record(memory, reading, elements, params);
    ReadAnswer {
        number: 0,
        whole,
        reach: 0,
    }
}

// Loose reading: where the number is 0, the record's 216 bytes in `memory`.
pub fn khamdoriem_read_loose(
    line: &[u8],
    variant: u32,
    year: u32,
    offset: i32,
    elements: &mut [[usize; 2]],
    params: &mut [Param],
    memory: &mut [u8],
) -> ReadAnswer
    ensures { LeavesLoose line.now variant year offset elements.old (rows params.old) memory.old result elements.new (rows params.new) memory.new }
{
    if memory.len() < layout::RECORD_SIZE {
        let e = elements.len();
        let p = params.len();
        return short(loose::answer(line, variant, year, offset, e, p));
    }
    leave(
        loose::read(line, variant, year, offset, elements, params),
        memory,
    )
}
