// The record byte by byte, as docs/INTERFACE.md lays it out: into memory that was lent, and from memory that comes in.
#![tactic(auto)]

ghost use Rattle.std.specs.Prelude.{◌≡◌, true, [], ◌∷◌, ◌+◌, ◌≤◌, ◌<◌, length};
ghost use Rattle.base.specs.Fills.{filled};
ghost use Rattle.layout.specs.Layout.{protocol_word, version_word, timestamp_word, seconds_word, nanos_word, digits_word, offset_word, message_word, word_count, record_size, strict_size, protocol_words, level_words, stamp_words, place_words, record_words, record_bytes, strict_bytes, Room, Puts};
ghost use Rattle.layout.specs.Incoming.{word_at, signed, marked, narrow, stamped, front_held, marks_held, holds_record, protocol_at, level_at, stamp_at, place_at, span_at, record_at, element_count_at, param_count_at};

use record::{Place, Protocol, Record, Span, StrictRecord, Timestamp};

// The number of each field's first word: a field ends where the next one starts.
pub const PROTOCOL_WORD: usize = 0;

pub const VERSION_WORD: usize = PROTOCOL_WORD + 1;

pub const FACILITY_WORD: usize = VERSION_WORD + 1;

pub const SEVERITY_WORD: usize = FACILITY_WORD + 2;

pub const TIMESTAMP_WORD: usize = SEVERITY_WORD + 2;

pub const SECONDS_WORD: usize = TIMESTAMP_WORD + 1;

pub const NANOS_WORD: usize = SECONDS_WORD + 1;

pub const DIGITS_WORD: usize = NANOS_WORD + 1;

pub const OFFSET_WORD: usize = DIGITS_WORD + 1;

pub const HOST_WORD: usize = OFFSET_WORD + 1;

pub const APP_WORD: usize = HOST_WORD + 3;

pub const PROCID_WORD: usize = APP_WORD + 3;

pub const MSGID_WORD: usize = PROCID_WORD + 3;

pub const MESSAGE_WORD: usize = MSGID_WORD + 3;

// The counts of elements and of parameters.
pub const ELEMENTS_WORD: usize = MESSAGE_WORD + 2;

pub const PARAMS_WORD: usize = ELEMENTS_WORD + 1;

// How many words a record has; the strict reader adds the timestamp's text and the mark of a message.
pub const WORD_COUNT: usize = PARAMS_WORD + 1;

pub const STRICT_WORD_COUNT: usize = WORD_COUNT + 4;

// How many bytes.
pub const RECORD_SIZE: usize = WORD_COUNT * 8;

pub const STRICT_SIZE: usize = STRICT_WORD_COUNT * 8;

// ---- into memory that was lent. Each answers the position after what it wrote.

// Eight stores, which the compiler makes one.
fn put_word(out: &mut [u8], at: usize, n: u64) -> usize
    requires { Room out.old at (n ∷ []) }
    ensures { Puts out.old at (n ∷ []) result out.new }
{
    out[at] = (n % 256) as u8;
    out[at + 1] = (n / 256 % 256) as u8;
    out[at + 2] = (n / 65536 % 256) as u8;
    out[at + 3] = (n / 16777216 % 256) as u8;
    out[at + 4] = (n / 4294967296 % 256) as u8;
    out[at + 5] = (n / 1099511627776 % 256) as u8;
    out[at + 6] = (n / 281474976710656 % 256) as u8;
    out[at + 7] = (n / 72057594037927936 % 256) as u8;
    at + 8
}

// Words, one after the other.
fn put_words<const N: usize>(out: &mut [u8], at: usize, words: [u64; N]) -> usize
    requires { Room out.old at words }
    ensures { Puts out.old at words.entry result out.new }
{
    let mut next = at;
    for word in words {
        next = put_word(out, next, word);
    }
    next
}

fn protocol_words(protocol: Protocol) -> [u64; 2]
    ensures { result ≡ protocol_words protocol }
{
    match protocol {
        Protocol::Rfc3164 => [0, 0],
        Protocol::Rfc5424(version) => [1, u64::from(version)],
    }
}

fn level_words(level: Option<u8>) -> [u64; 2]
    ensures { result ≡ level_words level }
{
    match level {
        None => [0, 0],
        Some(n) => [1, u64::from(n)],
    }
}

fn stamp_words(stamp: Option<Timestamp>) -> [u64; 5]
    ensures { result ≡ stamp_words stamp }
{
    match stamp {
        None => [0; 5],
        Some(t) => [
            1,
            t.seconds.cast_unsigned(),
            u64::from(t.nanos),
            u64::from(t.digits),
            i64::from(t.offset).cast_unsigned(),
        ],
    }
}

fn place_words(place: Place) -> [u64; 3]
    ensures { result ≡ place_words place }
{
    [
        u64::from(place.present),
        place.start as u64,
        place.len as u64,
    ]
}

// The fields that both readers have. A name is where the words of that field start.
#[inline(always)]
fn put_common(out: &mut [u8], r: &Record, e: usize, p: usize) -> usize
    requires { record_size ≤ length out.old }
    ensures { Puts out.old 0 (record_words r.now e p) result out.new }
{
    let facility = put_words(out, 0, protocol_words(r.protocol));
    let severity = put_words(out, facility, level_words(r.facility));
    let timestamp = put_words(out, severity, level_words(r.severity));
    let host = put_words(out, timestamp, stamp_words(r.timestamp));
    let app = put_words(out, host, place_words(r.host));
    let procid = put_words(out, app, place_words(r.app));
    let msgid = put_words(out, procid, place_words(r.procid));
    let message = put_words(out, msgid, place_words(r.msgid));
    put_words(
        out,
        message,
        [
            r.message.start as u64,
            r.message.len as u64,
            e as u64,
            p as u64,
        ],
    )
}

// The record of a loose reader, at the front of the memory.
pub fn put_record(out: &mut [u8], r: Record, e: usize, p: usize)
    requires { record_size ≤ length out.old }
    ensures { out.new ≡ filled (record_bytes r e p) out.old }
{
    put_common(out, &r, e, p);
}

// The record of the strict reader, at the front of the memory.
pub fn put_strict(out: &mut [u8], r: StrictRecord, e: usize, p: usize)
    requires { strict_size ≤ length out.old }
    ensures { out.new ≡ filled (strict_bytes r e p) out.old }
{
    let text = put_common(out, &r.common, e, p);
    let mark = put_words(out, text, place_words(r.timestamp_text));
    put_words(out, mark, [u64::from(r.has_message)]);
}

// ---- from memory that comes in

// Word `i` of the record, from its eight bytes.
pub fn word_at(s: &[u8], i: usize) -> u64
    requires record_size_in_bounds { record_size ≤ length s.now }
    requires i_lt_word_count { i < word_count }
    ensures { result ≡ word_at s.now i }
{
    let at = i * 8;
    u64::from_le_bytes([
        s[at],
        s[at + 1],
        s[at + 2],
        s[at + 3],
        s[at + 4],
        s[at + 5],
        s[at + 6],
        s[at + 7],
    ])
}

// An offset from its word, two's complement.
pub fn offset_of(n: u64) -> i32
    requires { narrow n ≡ true }
    ensures { result ≡ signed n }
{
    n.cast_signed() as i32
}

// Memory that is long enough for a record.
#[derive(Drop)]
struct Memory<'a> {
    bytes: &'a [u8],
    ghost long: { record_size ≤ length bytes.now },
}

impl Memory<'_> {
    fn word(&self, i: usize) -> u64
        requires { i < word_count }
        ensures { result ≡ word_at self.now.bytes.now i }
    {
        word_at(self.bytes, i)
    }

    // Whether word `i` is a mark of 0 with nothing behind it, or of 1 with a number below `limit`.
    fn is_marked(&self, i: usize, limit: u64) -> bool
        requires { i + 1 < word_count }
        ensures { result ≡ marked limit (word_at self.now.bytes.now i) (word_at self.now.bytes.now (i + 1)) }
    {
        let n = self.word(i + 1);
        match self.word(i) {
            0 => n == 0,
            1 => n < limit,
            _ => false,
        }
    }

    fn is_stamped(&self) -> bool
        ensures { result ≡ stamped (word_at self.now.bytes.now timestamp_word) (word_at self.now.bytes.now seconds_word) (word_at self.now.bytes.now nanos_word) (word_at self.now.bytes.now digits_word) (word_at self.now.bytes.now offset_word) }
    {
        let seconds = self.word(SECONDS_WORD);
        let nanos = self.word(NANOS_WORD);
        let digits = self.word(DIGITS_WORD);
        let offset = self.word(OFFSET_WORD);
        match self.word(TIMESTAMP_WORD) {
            0 => seconds == 0 && nanos == 0 && digits == 0 && offset == 0,
            1 => u32::try_from(nanos).is_ok()
                && u32::try_from(digits).is_ok()
                && i32::try_from(offset.cast_signed()).is_ok(),
            _ => false,
        }
    }

    #[tactic(auto, unfolding(crate::specs::Incoming::front_held))]
    fn front_held(&self) -> bool
        ensures { result ≡ front_held self.now.bytes.now }
    {
        self.is_marked(PROTOCOL_WORD, 1 << 32)
            && self.is_marked(FACILITY_WORD, 256)
            && self.is_marked(SEVERITY_WORD, 256)
            && self.is_stamped()
    }

    #[tactic(auto, unfolding(crate::specs::Incoming::marks_held))]
    fn marks_held(&self) -> bool
        ensures { result ≡ marks_held self.now.bytes.now }
    {
        self.word(HOST_WORD) < 2
            && self.word(APP_WORD) < 2
            && self.word(PROCID_WORD) < 2
            && self.word(MSGID_WORD) < 2
    }

    fn protocol(&self) -> Protocol
        requires { marked 4294967296 (word_at self.now.bytes.now protocol_word) (word_at self.now.bytes.now version_word) ≡ true }
        ensures { result ≡ protocol_at (word_at self.now.bytes.now protocol_word) (word_at self.now.bytes.now version_word) }
    {
        match self.word(PROTOCOL_WORD) {
            0 => Protocol::Rfc3164,
            _ => Protocol::Rfc5424(self.word(VERSION_WORD) as u32),
        }
    }

    // The level whose mark is word `i`.
    fn level(&self, i: usize) -> Option<u8>
        requires i_bound { i + 1 < word_count }
        requires i_value { marked 256 (word_at self.now.bytes.now i) (word_at self.now.bytes.now (i + 1)) ≡ true }
        ensures { result ≡ level_at (word_at self.now.bytes.now i) (word_at self.now.bytes.now (i + 1)) }
    {
        match self.word(i) {
            0 => None,
            _ => Some(self.word(i + 1) as u8),
        }
    }

    fn stamp(&self) -> Option<Timestamp>
        requires { stamped (word_at self.now.bytes.now timestamp_word) (word_at self.now.bytes.now seconds_word) (word_at self.now.bytes.now nanos_word) (word_at self.now.bytes.now digits_word) (word_at self.now.bytes.now offset_word) ≡ true }
        ensures { result ≡ stamp_at (word_at self.now.bytes.now timestamp_word) (word_at self.now.bytes.now seconds_word) (word_at self.now.bytes.now nanos_word) (word_at self.now.bytes.now digits_word) (word_at self.now.bytes.now offset_word) }
    {
        match self.word(TIMESTAMP_WORD) {
            0 => None,
            _ => Some(Timestamp {
                seconds: self.word(SECONDS_WORD).cast_signed(),
                nanos: self.word(NANOS_WORD) as u32,
                digits: self.word(DIGITS_WORD) as u32,
                offset: offset_of(self.word(OFFSET_WORD)),
            }),
        }
    }

    // The place whose mark is word `i`.
    fn place(&self, i: usize) -> Place
        requires { i + 2 < word_count }
        ensures { result ≡ place_at self.now.bytes.now i }
    {
        Place {
            present: self.word(i) == 1,
            start: self.word(i + 1) as usize,
            len: self.word(i + 2) as usize,
        }
    }

    fn message(&self) -> Span
        ensures { result ≡ span_at self.now.bytes.now message_word }
    {
        Span {
            start: self.word(MESSAGE_WORD) as usize,
            len: self.word(MESSAGE_WORD + 1) as usize,
        }
    }
}

// Whether the bytes hold a record.
#[tactic(auto, unfolding(crate::specs::Incoming::holds_record))]
pub fn holds_record(s: &[u8]) -> bool
    ensures { result ≡ holds_record s.now }
{
    if s.len() < RECORD_SIZE {
        return false;
    }
    let memory = Memory { bytes: s };
    memory.front_held() && memory.marks_held()
}

// The record that bytes hold.
#[tactic(auto, unfolding(crate::specs::Incoming::record_at))]
pub fn record_at(s: &[u8]) -> Record
    requires { holds_record s.now ≡ true }
    ensures { result ≡ record_at s.now }
{
    let memory = Memory { bytes: s };
    Record {
        protocol: memory.protocol(),
        facility: memory.level(FACILITY_WORD),
        severity: memory.level(SEVERITY_WORD),
        timestamp: memory.stamp(),
        host: memory.place(HOST_WORD),
        app: memory.place(APP_WORD),
        procid: memory.place(PROCID_WORD),
        msgid: memory.place(MSGID_WORD),
        message: memory.message(),
    }
}

// The count of elements, the last word but one.
pub fn element_count(s: &[u8]) -> usize
    requires { holds_record s.now ≡ true }
    ensures { result ≡ element_count_at s.now }
{
    word_at(s, ELEMENTS_WORD) as usize
}

// The count of parameters, the last word.
pub fn param_count(s: &[u8]) -> usize
    requires { holds_record s.now ≡ true }
    ensures { result ≡ param_count_at s.now }
{
    word_at(s, PARAMS_WORD) as usize
}
