// Loose reading with the settings of a gate: the host is the line's own where it has one, and else the settings'.
#![tactic(auto)]

ghost use Rattle.std.specs.Prelude.{◌≡◌, ◌≤◌, length};
ghost use Rattle.base.specs.Texts.{text_at};
ghost use Rattle.record.specs.Params.{rows};
ghost use Rattle.layout.specs.Layout.{record_size};
ghost use Rattle.site.specs.Site.{host_of, host_text, with_host, ReadsWith};
ghost use Rattle.site.specs.Numbers.{read_with, site_answer_of, short_answer, LeavesSite};
ghost use Rattle.site.specs.Steps.{AnswersWith, Left};

use record::{Param, Place, Reading, Record, Refusal, Span};

// Which of the two slices holds the host, and its place there.
#[derive(Clone, Copy)]
pub enum Holder {
    Nowhere,
    InLine(Span),
    InSettings(Span),
}

// What a reading with settings answers: the record, both counts and who holds the host.
#[derive(Clone, Copy)]
pub struct SiteReading {
    pub reading: Record,
    pub elements: usize,
    pub params: usize,
    pub holder: Holder,
}

// The same as a C caller gets it, beside the record: `holder` is 0 for no host, 1 for the line's, 2 for the settings'.
#[repr(C)]
#[derive(Clone, Copy)]
pub struct SiteAnswer {
    pub number: u32,
    pub holder: u32,
    pub host_start: usize,
    pub host_len: usize,
}

// ---- the host

fn host_of(own: Place, default: Span) -> Holder
    ensures { result ≡ host_of own default }
{
    if own.present {
        return Holder::InLine(Span {
            start: own.start,
            len: own.len,
        });
    }
    if default.len == 0 {
        return Holder::Nowhere;
    }
    Holder::InSettings(default)
}

// The `len` bytes from `start` on, as far as there are any.
fn part(s: &[u8], start: usize, len: usize) -> &[u8]
    ensures { result.now ≡ text_at s.now start len }
{
    let n = s.len();
    if n <= start {
        return &s[0..0];
    }
    if n - start < len {
        return &s[start..n];
    }
    let end = start + len;
    &s[start..end]
}

// The bytes of the host, in whichever of the two slices holds it.
pub fn host<'a>(line: &'a [u8], file: &'a [u8], held: Holder) -> &'a [u8]
    ensures { result.now ≡ host_text line.now file.now held }
{
    match held {
        Holder::Nowhere => part(line, 0, 0),
        Holder::InLine(p) => part(line, p.start, p.len),
        Holder::InSettings(p) => part(file, p.start, p.len),
    }
}

// ---- the answer

// A loose reading with the settings' host as the default; a line with no reading is refused.
fn with_default(default: Span, x: Result<Reading, Refusal>) -> Result<SiteReading, Refusal>
    ensures { result ≡ with_host default x }
{
    match x? {
        Reading::Read(reading, elements, params) => Ok(SiteReading {
            reading,
            elements,
            params,
            holder: host_of(reading.host, default),
        }),
        Reading::Whole(_) => Err(Refusal::NoReading),
    }
}

// What is answered to tables of `e` and `p` entries, with no table at hand.
fn answer(file: &[u8], gate: u32, line: &[u8], e: usize, p: usize) -> Result<SiteReading, Refusal>
    ensures { AnswersWith file.now gate line.now e p result }
{
    let s = settings::read(file, gate)?;
    let x = loose::answer(line, s.variant, s.year, s.offset, e, p);
    with_default(s.host, x)
}

// Loose reading of a line with the settings of a gate.
pub fn read(
    file: &[u8],
    gate: u32,
    line: &[u8],
    elements: &mut [[usize; 2]],
    params: &mut [Param],
) -> Result<SiteReading, Refusal>
    ensures { ReadsWith file.now gate line.now elements.old (rows params.old) result elements.new (rows params.new) }
{
    let s = settings::read(file, gate)?;
    let x = loose::read(line, s.variant, s.year, s.offset, elements, params);
    with_default(s.host, x)
}

// ---- for C

fn read_answer(host: Holder) -> SiteAnswer
    ensures { result ≡ read_with host }
{
    match host {
        Holder::Nowhere => SiteAnswer {
            number: 0,
            holder: 0,
            host_start: 0,
            host_len: 0,
        },
        Holder::InLine(p) => SiteAnswer {
            number: 0,
            holder: 1,
            host_start: p.start,
            host_len: p.len,
        },
        Holder::InSettings(p) => SiteAnswer {
            number: 0,
            holder: 2,
            host_start: p.start,
            host_len: p.len,
        },
    }
}

fn site_answer_of(r: Result<SiteReading, Refusal>) -> SiteAnswer
    ensures { result ≡ site_answer_of r }
{
    match r {
        Ok(x) => read_answer(x.holder),
        Err(f) => SiteAnswer {
            number: u32::from(f),
            holder: 0,
            host_start: 0,
            host_len: 0,
        },
    }
}

// What is answered where the record's memory is too short.
fn short(r: Result<SiteReading, Refusal>) -> SiteAnswer
    ensures { result ≡ short_answer (site_answer_of r) }
{
    let a = site_answer_of(r);
    if a.number == 0 {
        return SiteAnswer {
            number: 8,
            holder: 0,
            host_start: 0,
            host_len: 0,
        };
    }
    a
}

// What is answered, and the record in `memory` where the number is 0.
fn leave(r: Result<SiteReading, Refusal>, memory: &mut [u8]) -> SiteAnswer
    requires { record_size ≤ length memory.old }
    ensures { Left r memory.old result memory.new }
{
    let told = site_answer_of(r);
    let Ok(x) = r else {
        return told;
    };
    layout::put_record(memory, x.reading, x.elements, x.params);
    told
}

// Loose reading with settings: where the number is 0, the record's 216 bytes in `memory`.
pub fn khamdoriem_read_with_settings(
    file: &[u8],
    gate: u32,
    line: &[u8],
    elements: &mut [[usize; 2]],
    params: &mut [Param],
    memory: &mut [u8],
) -> SiteAnswer
    ensures { LeavesSite file.now gate line.now elements.old (rows params.old) memory.old result elements.new (rows params.new) memory.new }
{
    let room = memory.len();
    if room < layout::RECORD_SIZE {
        let e = elements.len();
        let p = params.len();
        return short(answer(file, gate, line, e, p));
    }
    let r = read(file, gate, line, elements, params);
    leave(r, memory)
}
