// Strict reading over the C boundary. Beside the reader stands the walk that finds where a line broke, and nothing else: what other calls need is compiled apart.
#![tactic(auto)]

ghost use Rattle.std.specs.Prelude.{◌≡◌, ◌≤◌, length};
ghost use Rattle.record.specs.Params.{rows};
ghost use Rattle.layout.specs.Layout.{strict_size};
ghost use Rattle.exports.specs.Exports.{LeavesStrict};
ghost use Rattle.exports.specs.Steps.{StrictTold, StrictShort, StrictLeft};

use record::{Param, ReadAnswer, Refusal, StrictReading};

// What is told of a refusal: where the line broke, if it has no reading.
fn told(line: &[u8], refusal: Refusal) -> ReadAnswer
    ensures { StrictTold line.now (Err refusal) result }
{
    let reach = match refusal {
        Refusal::NoReading => reach::reach(line),
        _ => 0,
    };
    ReadAnswer {
        number: u32::from(refusal),
        whole: 0,
        reach,
    }
}

// What is answered where the record's memory is too short: that refusal in place of a reading.
fn short(line: &[u8], r: Result<StrictReading, Refusal>) -> ReadAnswer
    ensures { StrictShort line.now r result }
{
    match r {
        Ok(_) => record::strict_read_answer_of(Err(Refusal::OutputShort)),
        Err(refusal) => told(line, refusal),
    }
}

// What is answered, and the record in `memory` where the number is 0.
fn leave(line: &[u8], r: Result<StrictReading, Refusal>, memory: &mut [u8]) -> ReadAnswer
    requires { strict_size ≤ length memory.old }
    ensures { StrictLeft line.now r memory.old result memory.new }
{
    match r {
        Ok(read) => {
            layout::put_strict(memory, read.reading, read.elements, read.params);
            ReadAnswer {
                number: 0,
                whole: 0,
                reach: 0,
            }
        }
        Err(refusal) => told(line, refusal),
    }
}

// Strict reading: where the number is 0, the record's 248 bytes in `memory`.
pub fn khamdoriem_read_strict(
    line: &[u8],
    elements: &mut [[usize; 2]],
    params: &mut [Param],
    memory: &mut [u8],
) -> ReadAnswer
    ensures { LeavesStrict line.now elements.old (rows params.old) memory.old result elements.new (rows params.new) memory.new }
{
    if memory.len() < layout::STRICT_SIZE {
        let e = elements.len();
        let p = params.len();
        return short(line, strict::answer(line, e, p));
    }
    leave(line, strict::read(line, elements, params), memory)
}
