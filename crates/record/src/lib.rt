// What is read from a line: places, the record, the strict record; and the answers, with their refusals.
#![tactic(auto)]

ghost use Rattle.std.specs.Prelude.{◌≡◌};
ghost use Rattle.record.specs.Places.{absent, place};
ghost use Rattle.record.specs.Params.{blank};
ghost use Rattle.record.specs.Refusals.{refusal_number};
ghost use Rattle.record.specs.Records.{message_alone, empty_record, empty_strict};
ghost use Rattle.record.specs.Answers.{answer_of, strict_answer_of, read_answer_of, strict_read_answer_of, output_answer_of};

// How many bytes a line may have.
pub const LINE_LIMIT: usize = 8192;

// A text of the line. An absent one has start and length 0; an empty one is present.
#[derive(Clone, Copy)]
pub struct Place {
    pub present: bool,
    pub start: usize,
    pub len: usize,
}

// Where a message lies. A line always has one but for the strict reader, whose record says whether.
#[derive(Clone, Copy)]
pub struct Span {
    pub start: usize,
    pub len: usize,
}

#[derive(Clone, Copy, PartialEq, Eq)]
pub enum Protocol {
    Rfc3164,
    Rfc5424(u32),
}

// An instant, in seconds since 1970-01-01T00:00:00Z and nanoseconds; how many digits its fraction had, 0 to 9; and the offset in minutes at which it is
// shown.
#[derive(Clone, Copy)]
pub struct Timestamp {
    pub seconds: i64,
    pub nanos: u32,
    pub digits: u32,
    pub offset: i32,
}

#[derive(Clone, Copy)]
pub struct Record {
    pub protocol: Protocol,
    pub facility: Option<u8>,
    pub severity: Option<u8>,
    pub timestamp: Option<Timestamp>,
    pub host: Place,
    pub app: Place,
    pub procid: Place,
    pub msgid: Place,
    pub message: Span,
}

// What the strict reader adds: the place of the timestamp's text, and whether there is a message.
#[derive(Clone, Copy)]
pub struct StrictRecord {
    pub common: Record,
    pub timestamp_text: Place,
    pub has_message: bool,
}

// An entry of the parameter table: its element's number, and where its name and its value lie.
#[repr(C)]
#[derive(Clone, Copy)]
pub struct Param {
    pub element: usize,
    pub name_start: usize,
    pub name_len: usize,
    pub value_start: usize,
    pub value_len: usize,
}

// Why a call is refused, in the order in which it is checked (RULES Numbers).
#[derive(Clone, Copy, PartialEq, Eq)]
pub enum Refusal {
    LineTooLong,
    BadSetting,
    NotUtf8,
    NoReading,
    TooManyElements,
    TooManyParams,
    Unsuitable,
    NotFound,
    OutputShort,
    CellFull,
    BadCount,
    FrameTooLong,
    BadLength,
    UnknownVersion,
    BadField,
    WrongClaim,
    Unwritable,
}

// What the loose reader answers: the record and both counts; or the whole line as the message, where the rules give no reading.
#[derive(Clone, Copy)]
pub enum Reading {
    Read(Record, usize, usize),
    Whole(Record),
}

// What the strict reader answers: the record and both counts.
#[derive(Clone, Copy)]
pub struct StrictReading {
    pub reading: StrictRecord,
    pub elements: usize,
    pub params: usize,
}

// The same answers as a number (0: done) and values.
#[derive(Clone, Copy)]
pub struct Answer {
    pub number: u32,
    pub whole: bool,
    pub reading: Record,
    pub elements: usize,
    pub params: usize,
}

#[derive(Clone, Copy)]
pub struct StrictAnswer {
    pub number: u32,
    pub reading: StrictRecord,
    pub elements: usize,
    pub params: usize,
}

// As a C caller gets it.
#[repr(C)]
#[derive(Clone, Copy)]
pub struct OutputAnswer {
    pub number: u32,
    pub len: usize,
}

// What a reader answers a C caller, beside the record: `whole` is 1 where the whole line is the message, else 0. `reach` is 0 here: what is reported with
// refusal 4 is put in at the C boundary.
#[repr(C)]
#[derive(Clone, Copy)]
pub struct ReadAnswer {
    pub number: u32,
    pub whole: u32,
    pub reach: usize,
}

// The place of a text that is absent.
pub fn absent() -> Place
    ensures { result ≡ absent }
{
    Place {
        present: false,
        start: 0,
        len: 0,
    }
}

// The place of a text that is present.
pub fn place_at(start: usize, len: usize) -> Place
    ensures { result ≡ place start len }
{
    Place {
        present: true,
        start,
        len,
    }
}

// An entry of zeros, as a table has it before it is filled.
pub fn blank() -> Param
    ensures { result ≡ blank }
{
    Param {
        element: 0,
        name_start: 0,
        name_len: 0,
        value_start: 0,
        value_len: 0,
    }
}

// The first `len` bytes of the line as the message, and nothing else.
pub fn message_alone(len: usize) -> Record
    ensures { result ≡ message_alone len }
{
    let none = absent();
    Record {
        protocol: Protocol::Rfc3164,
        facility: None,
        severity: None,
        timestamp: None,
        host: none,
        app: none,
        procid: none,
        msgid: none,
        message: Span { start: 0, len },
    }
}

// The record of a refusal.
pub fn empty_record() -> Record
    ensures { result ≡ empty_record }
{
    message_alone(0)
}

// The strict record of a refusal.
pub fn empty_strict() -> StrictRecord
    ensures { result ≡ empty_strict }
{
    StrictRecord {
        common: empty_record(),
        timestamp_text: absent(),
        has_message: false,
    }
}

// The number of a refusal (RULES Numbers).
impl From<Refusal> for u32 {
    ghost from_gives = { λ r n. n ≡ refusal_number r };

    fn from(r: Refusal) -> u32 {
        match r {
            Refusal::LineTooLong => 1,
            Refusal::BadSetting => 2,
            Refusal::NotUtf8 => 3,
            Refusal::NoReading => 4,
            Refusal::TooManyElements => 5,
            Refusal::TooManyParams => 6,
            Refusal::Unsuitable => 7,
            Refusal::NotFound => 9,
            Refusal::OutputShort => 8,
            Refusal::CellFull => 10,
            Refusal::BadCount => 11,
            Refusal::FrameTooLong => 12,
            Refusal::BadLength => 13,
            Refusal::UnknownVersion => 14,
            Refusal::BadField => 15,
            Refusal::WrongClaim => 16,
            Refusal::Unwritable => 17,
        }
    }
}

// A reading's number and values; a refusal has the empty record and zeros.
pub fn answer_of(r: Result<Reading, Refusal>) -> Answer
    ensures { result ≡ answer_of r }
{
    match r {
        Ok(Reading::Read(reading, elements, params)) => Answer {
            number: 0,
            whole: false,
            reading,
            elements,
            params,
        },
        Ok(Reading::Whole(reading)) => Answer {
            number: 0,
            whole: true,
            reading,
            elements: 0,
            params: 0,
        },
        Err(refusal) => Answer {
            number: u32::from(refusal),
            whole: false,
            reading: empty_record(),
            elements: 0,
            params: 0,
        },
    }
}

// The same of a strict reading.
pub fn strict_answer_of(r: Result<StrictReading, Refusal>) -> StrictAnswer
    ensures { result ≡ strict_answer_of r }
{
    match r {
        Ok(
            StrictReading {
                reading,
                elements,
                params,
            },
        ) => StrictAnswer {
            number: 0,
            reading,
            elements,
            params,
        },
        Err(refusal) => StrictAnswer {
            number: u32::from(refusal),
            reading: empty_strict(),
            elements: 0,
            params: 0,
        },
    }
}

// What a C caller gets of a reading by value.
pub fn read_answer_of(r: Result<Reading, Refusal>) -> ReadAnswer
    ensures { result ≡ read_answer_of r }
{
    let a = answer_of(r);
    ReadAnswer {
        number: a.number,
        whole: a.whole as u32,
        reach: 0,
    }
}

// The same of a strict reading.
pub fn strict_read_answer_of(r: Result<StrictReading, Refusal>) -> ReadAnswer
    ensures { result ≡ strict_read_answer_of r }
{
    let a = strict_answer_of(r);
    ReadAnswer {
        number: a.number,
        whole: 0,
        reach: 0,
    }
}

// The same of what printing and lookup answer.
pub fn output_answer_of(w: Result<usize, Refusal>) -> OutputAnswer
    ensures { result ≡ output_answer_of w }
{
    match w {
        Ok(len) => OutputAnswer { number: 0, len },
        Err(refusal) => OutputAnswer {
            number: u32::from(refusal),
            len: 0,
        },
    }
}
