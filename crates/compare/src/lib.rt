// Comparing two lines, both read by the loose exact reader under one set of settings: which fields differ.
#![tactic(auto)]

ghost use Rattle.std.specs.Prelude.{◌≡◌};
ghost use Rattle.record.specs.Params.{rows};
ghost use Rattle.compare.specs.Compare.{Compares};
ghost use Rattle.compare.specs.Steps.{refusal_of, line_of};
ghost use Rattle.compare.specs.Numbers.{answer_of, Answers};

use differ::{Differences, Line};
use loose::Judged;
use record::{Param, Reading, Refusal};

// Which line was refused, 1 or 2, and why.
#[derive(Clone, Copy)]
pub struct Refused {
    pub line: u32,
    pub refusal: Refusal,
}

// Why a line is refused, if it is: with 4 where it has no reading.
fn refusal_of(r: Result<Reading, Refusal>) -> Option<Refusal>
    ensures { result ≡ refusal_of r }
{
    match r {
        Ok(Reading::Read(_, _, _)) => None,
        Ok(Reading::Whole(_)) => Some(Refusal::NoReading),
        Err(refusal) => Some(refusal),
    }
}

fn line_of(judged: Judged) -> Line
    ensures { result ≡ line_of judged }
{
    match judged {
        Judged::Settled(_) => Line {
            read: record::empty_record(),
            end: 0,
            ids: 0,
            params: 0,
        },
        Judged::Fitting {
            rules: _,
            end,
            read,
            at: _,
            elements,
            params,
        } => Line {
            read,
            end,
            ids: elements,
            params,
        },
    }
}

// Both lines are judged before a table is touched, so that a refused call changes nothing.
pub fn compare(
    line1: &[u8],
    line2: &[u8],
    variant: u32,
    year: u32,
    offset: i32,
    elements1: &mut [[usize; 2]],
    params1: &mut [Param],
    elements2: &mut [[usize; 2]],
    params2: &mut [Param],
) -> Result<Differences, Refused>
    ensures { Compares line1.now line2.now variant year offset elements1.old (rows params1.old) elements2.old (rows params2.old) result elements1.new (rows params1.new) elements2.new (rows params2.new) }
{
    let e1 = elements1.len();
    let p1 = params1.len();
    let e2 = elements2.len();
    let p2 = params2.len();
    let first = loose::judge(line1, variant, year, offset, e1, p1);
    let second = loose::judge(line2, variant, year, offset, e2, p2);
    if let Some(refusal) = refusal_of(loose::reading_of(first)) {
        return Err(Refused { line: 1, refusal });
    }
    if let Some(refusal) = refusal_of(loose::reading_of(second)) {
        return Err(Refused { line: 2, refusal });
    }
    loose::fill(line1, first, elements1, params1);
    loose::fill(line2, second, elements2, params2);
    let a = line_of(first);
    let b = line_of(second);
    Ok(differ::differ_in(line1, a, elements1, line2, b, elements2))
}

// As a C caller gets it: the number of a refusal (0: none) and the line that is refused, 1 or 2; or what differs.
#[repr(C)]
#[derive(Clone, Copy)]
pub struct CompareAnswer {
    pub number: u32,
    pub line: u32,
    pub fields: u32,
    pub pair_line: u32,
    pub position: usize,
    pub pair_entry: usize,
}

fn answer_of(c: Result<Differences, Refused>) -> CompareAnswer
    ensures { result ≡ answer_of c }
{
    match c {
        Err(refused) => CompareAnswer {
            number: u32::from(refused.refusal),
            line: refused.line,
            fields: 0,
            pair_line: 0,
            position: 0,
            pair_entry: 0,
        },
        Ok(d) => CompareAnswer {
            number: 0,
            line: 0,
            fields: d.fields,
            pair_line: d.pair_line,
            position: d.position,
            pair_entry: d.pair_entry,
        },
    }
}

// The comparison over the C boundary, in numbers.
pub fn khamdoriem_compare(
    line1: &[u8],
    line2: &[u8],
    variant: u32,
    year: u32,
    offset: i32,
    elements1: &mut [[usize; 2]],
    params1: &mut [Param],
    elements2: &mut [[usize; 2]],
    params2: &mut [Param],
) -> CompareAnswer
    ensures { Answers line1.now line2.now variant year offset elements1.old (rows params1.old) elements2.old (rows params2.old) result elements1.new (rows params1.new) elements2.new (rows params2.new) }
{
    let c = compare(
        line1, line2, variant, year, offset, elements1, params1, elements2, params2,
    );
    answer_of(c)
}
