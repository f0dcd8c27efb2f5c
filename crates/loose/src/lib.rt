// lib.rs: the loose reader.
#![tactic(auto)]

ghost use Rattle.std.specs.Prelude.{◌≡◌, ◌≤◌, length};
ghost use Rattle.record.specs.Params.{rows};
ghost use Rattle.draft.specs.Drafts.{draft_of};
ghost use Rattle.loose.specs.Loose.{by_variant, settings_ok, answered, Reads};
ghost use Rattle.loose.specs.Judging.{Passes, Judges, is_fitting, data_of, rules_of, reading_of, Fillable, FilledIn};

use draft::Draft;
use record::{Param, Reading, Record, Refusal};
use structured_data::Rules;

// What is known of a line before a table is touched: its answer, where no table is asked for, or a reading. `end` is where the trimmed line ends. It
// stands before the record, so that the records of both lie at one place and are copied whole.
#[derive(Clone, Copy)]
pub enum Judged {
    Settled(Result<Reading, Refusal>),
    Fitting {
        rules: Rules,
        end: usize,
        at: usize,
        read: Record,
        elements: usize,
        params: usize,
    },
}

fn settings_ok(variant: u32, year: u32, offset: i32) -> bool
    ensures { result ≡ settings_ok variant year offset }
{
    (variant <= 2) & (year <= calendar::LAST_YEAR) & calendar::is_offset(offset)
}

// Variant 0 tries RFC 5424, then RFC 3164; 1 is RFC 3164, 2 RFC 5424.
fn by_variant(s: &[u8], start: usize, variant: u32, year: u32, offset: i32) -> Option<Draft>
    requires { start ≤ length s.now }
    ensures { result ≡ draft_of (by_variant variant year offset s.now start) }
{
    if variant == 1 {
        return rfc3164::rfc3164(s, start, year, offset);
    }
    let draft = rfc5424::rfc5424(s, start);
    let None = draft else {
        return draft;
    };
    if variant == 0 {
        return rfc3164::rfc3164(s, start, year, offset);
    }
    draft
}

// The whole line as the message, or refusals 5 and 6, where none of the first three is given: tables of `e` and `p` entries.
fn judge_text(line: &[u8], variant: u32, year: u32, offset: i32, e: usize, p: usize) -> Judged
    requires { Passes line.now variant year offset }
    ensures { Judges line.now variant year offset e p result }
{
    let ends = white::trim(line);
    let end = ends.end;
    let Some(
        Draft {
            rules,
            read,
            at,
            elements,
            params,
        },
    ) = by_variant(&line[0..end], ends.start, variant, year, offset)
    else {
        return Judged::Settled(Ok(Reading::Whole(record::message_alone(line.len()))));
    };
    if e < elements {
        return Judged::Settled(Err(Refusal::TooManyElements));
    }
    if p < params {
        return Judged::Settled(Err(Refusal::TooManyParams));
    }
    Judged::Fitting {
        rules,
        end,
        read,
        at,
        elements,
        params,
    }
}

// All refusals, in order.
pub fn judge(line: &[u8], variant: u32, year: u32, offset: i32, e: usize, p: usize) -> Judged
    ensures { Judges line.now variant year offset e p result }
{
    if record::LINE_LIMIT < line.len() {
        return Judged::Settled(Err(Refusal::LineTooLong));
    }
    if !settings_ok(variant, year, offset) {
        return Judged::Settled(Err(Refusal::BadSetting));
    }
    if !utf8::is_utf8(line) {
        return Judged::Settled(Err(Refusal::NotUtf8));
    }
    judge_text(line, variant, year, offset, e, p)
}

// Whether a line is read.
fn is_fitting(judged: Judged) -> bool
    ensures { result ≡ is_fitting judged }
{
    match judged {
        Judged::Settled(_) => false,
        Judged::Fitting {
            rules: _,
            end: _,
            read: _,
            at: _,
            elements: _,
            params: _,
        } => true,
    }
}

// What the rows of a line that is read are stored by, but for the rules: where the trimmed line ends, where the structured data stands, and the counts.
#[derive(Clone, Copy)]
struct Data {
    end: usize,
    at: usize,
    ids: usize,
    params: usize,
}

fn data_of(judged: Judged) -> Data
    ensures { result ≡ data_of judged }
{
    match judged {
        Judged::Settled(_) => Data {
            end: 0,
            at: 0,
            ids: 0,
            params: 0,
        },
        Judged::Fitting {
            rules: _,
            end,
            read: _,
            at,
            elements: n,
            params,
        } => Data {
            end,
            at,
            ids: n,
            params,
        },
    }
}

fn rules_of(judged: Judged) -> Rules
    ensures { result ≡ rules_of judged }
{
    match judged {
        Judged::Settled(_) => Rules::Rfc3164Rules,
        Judged::Fitting {
            rules,
            end: _,
            read: _,
            at: _,
            elements: _,
            params: _,
        } => rules,
    }
}

pub fn reading_of(judged: Judged) -> Result<Reading, Refusal>
    ensures { result ≡ reading_of judged }
{
    match judged {
        Judged::Settled(reading) => reading,
        Judged::Fitting {
            rules: _,
            end: _,
            read,
            at: _,
            elements,
            params,
        } => Ok(Reading::Read(read, elements, params)),
    }
}

// What is answered to tables of `e` and `p` entries, with no table at hand.
pub fn answer(
    line: &[u8],
    variant: u32,
    year: u32,
    offset: i32,
    e: usize,
    p: usize,
) -> Result<Reading, Refusal>
    ensures { result ≡ answered line.now variant year offset e p }
{
    reading_of(judge(line, variant, year, offset, e, p))
}

// The rows of a line that is read, into both tables; of another line none.
pub fn fill(line: &[u8], judged: Judged, elements: &mut [[usize; 2]], params: &mut [Param])
    requires { Fillable line.now judged elements.old (rows params.old) }
    ensures { FilledIn line.now judged elements.old (rows params.old) elements.new (rows params.new) }
{
    if is_fitting(judged) {
        let data = data_of(judged);
        let end = data.end;
        let at = data.at;
        let n = data.ids;
        let m = data.params;
        let rules = rules_of(judged);
        structured_data::fill_data(rules, &line[0..end], at, n, m, elements, params);
    }
}

// Loose reading: a line with no reading becomes the message.
pub fn read(
    line: &[u8],
    variant: u32,
    year: u32,
    offset: i32,
    elements: &mut [[usize; 2]],
    params: &mut [Param],
) -> Result<Reading, Refusal>
    ensures { Reads line.now variant year offset elements.old (rows params.old) result elements.new (rows params.new) }
{
    let e = elements.len();
    let p = params.len();
    let judged = judge(line, variant, year, offset, e, p);
    fill(line, judged, elements, params);
    reading_of(judged)
}
