// The splitter: octet-counted and LF streams, fed any number of bytes at a time. One frame is held, at the front of a lent buffer.
#![tactic(auto)]

ghost use Rattle.std.specs.Prelude.{◌≡◌, ◌+◌, ◌*◌, ◌-◌, ◌≤◌, [], length, drop, if◌then◌else◌};
ghost use Rattle.std.specs.List.{prefix_len};
ghost use Rattle.base.specs.Runs.{run, eight};
ghost use Rattle.record.specs.Limits.{line_limit};
ghost use Rattle.stream.specs.Machine.{start_of, unfinished, digit_on, space_on, up_to};
ghost use Rattle.stream.specs.Feeds.{answer_of, Feeds, Served};
ghost use Rattle.stream.specs.Steps.{mores, to_come, not_lf, Grew, Counted, end_fed};
ghost use Rattle.stream.specs.Numbers.{numbers_of, state_of, start_answer_of, feed_answer, feed_answer_of, finish_answer_of, Splits};

use record::Refusal;

// Where a stream stands. Every value is a state.
#[derive(Clone, Copy)]
pub enum State {
    // before a counted frame's content: what the digits so far write
    Count(u32),
    // in a counted frame: how many of its bytes are to come, and how many have come
    Content(u32, u32),
    // in a line: how many of its bytes have come
    Line(u32),
    // after a bad count
    Ended,
}

// What a call tells: nothing; a frame, which lies at the buffer's front, and its length; or a refusal.
#[derive(Clone, Copy)]
pub enum Event {
    More,
    Frame(usize),
    Refused(Refusal),
}

// What a call answers: the state, how many bytes it took, and what it tells.
#[derive(Clone, Copy)]
pub struct Fed {
    pub state: State,
    pub taken: usize,
    pub event: Event,
}

// A state in numbers, as a C caller keeps it: the stage, 1 to 4, and the numbers of `State`.
#[repr(C)]
#[derive(Clone, Copy)]
pub struct StreamState {
    pub stage: u32,
    pub left: u32,
    pub came: u32,
}

// The answers as a C caller gets them: a number (0: done) and values.
#[repr(C)]
#[derive(Clone, Copy)]
pub struct StartAnswer {
    pub number: u32,
    pub state: StreamState,
}

// `frame` is 1 where a frame is complete, else 0.
#[repr(C)]
#[derive(Clone, Copy)]
pub struct FeedAnswer {
    pub number: u32,
    pub frame: u32,
    pub taken: usize,
    pub len: usize,
    pub state: StreamState,
}

#[repr(C)]
#[derive(Clone, Copy)]
pub struct FinishAnswer {
    pub number: u32,
    pub unfinished: u32,
}

// The state at the start of a stream, and at its restart. Kind 0 is counted, 1 lines.
#[tactic(auto, unfolding(crate::specs::Machine::start_of))]
pub fn start(kind: u32) -> Result<State, Refusal>
    ensures { result ≡ start_of kind }
{
    match kind {
        0 => Ok(State::Count(0)),
        1 => Ok(State::Line(0)),
        _ => Err(Refusal::BadSetting),
    }
}

// At the end of the stream: the content bytes of an unfinished frame.
pub fn finish(state: State) -> u32
    ensures { result ≡ unfinished state }
{
    match state {
        State::Count(_) | State::Ended => 0,
        State::Content(_, n) | State::Line(n) => n,
    }
}

// Whether none of the eight bytes from place `i` on is LF. All are asked, so that the compiler makes one test of them.
fn eight_free(s: &[u8], i: usize) -> bool
    requires { i + 8 ≤ length s.now }
    ensures { result ≡ eight not_lf s.now i }
{
    !(s[i] == 10)
        & !(s[i + 1] == 10)
        & !(s[i + 2] == 10)
        & !(s[i + 3] == 10)
        & !(s[i + 4] == 10)
        & !(s[i + 5] == 10)
        & !(s[i + 6] == 10)
        & !(s[i + 7] == 10)
}

// How many bytes in front are no LF, by eights.
fn free_front(s: &[u8]) -> usize
    ensures upper_bound { result ≤ length s.now }
    ensures s_value { run not_lf s.now ≡ result + run not_lf (drop result s.now) }
{
    let n = s.len();
    let mut i = 0;
    while 8 <= n - i {
        if !eight_free(s, i) {
            return i;
        }
        i += 8;
    }
    i
}

// How many bytes come before the first LF, one by one.
fn before_lf(s: &[u8]) -> usize
    ensures { result ≡ prefix_len not_lf s.now }
{
    s.iter().take_while(|b| **b != 10).count()
}

// How many bytes come before the first LF.
fn line_front(s: &[u8]) -> usize
    ensures { result ≡ run not_lf s.now }
{
    let i = free_front(s);
    i + before_lf(base::past(s, i))
}

// `k` content bytes more.
fn grown(n: u32, k: usize) -> u32
    ensures { result ≡ mores n k }
{
    n.saturating_add(u32::try_from(k).unwrap_or(u32::MAX))
}

// Content bytes behind `n` of them: they go into the buffer as far as 8,192.
fn hold(n: u32, content: &[u8], buffer: &mut [u8]) -> u32
    requires { line_limit ≤ length buffer.old }
    ensures { Grew n content.now buffer.old result buffer.new }
{
    let at = record::LINE_LIMIT.min(n as usize);
    let m = (record::LINE_LIMIT - at).min(content.len());
    output::put_text(buffer, at, &content[..m]);
    grown(n, content.len())
}

// A frame of `n` content bytes has ended, or one that was passed over.
fn ended(state: State, taken: usize, n: u32) -> Fed
    ensures { result ≡ end_fed state taken n }
{
    let len = n as usize;
    let event = if len <= record::LINE_LIMIT {
        Event::Frame(len)
    } else {
        Event::Refused(Refusal::FrameTooLong)
    };
    Fed {
        state,
        taken,
        event,
    }
}

// `feed` in a line of which `n` bytes have come.
fn from_line(n: u32, bytes: &[u8], buffer: &mut [u8]) -> Fed
    requires { line_limit ≤ length buffer.old }
    ensures { Feeds (State.Line n) bytes.now buffer.old result buffer.new }
{
    let k = line_front(bytes);
    let m = hold(n, &bytes[..k], buffer);
    if k < bytes.len() {
        ended(State::Line(0), k + 1, m)
    } else {
        Fed {
            state: State::Line(m),
            taken: k,
            event: Event::More,
        }
    }
}

// How many bytes of a counted frame are to come. (At least one: `left` is 0 in no state that this crate makes.)
fn to_come(left: u32) -> usize
    ensures { result ≡ to_come left }
{
    (left as usize).max(1)
}

// `feed` in a counted frame: `left` bytes are to come and `n` have come.
fn from_content(left: u32, n: u32, bytes: &[u8], buffer: &mut [u8]) -> Fed
    requires { line_limit ≤ length buffer.old }
    ensures { Feeds (State.Content left n) bytes.now buffer.old result buffer.new }
{
    let all = to_come(left);
    let k = bytes.len().min(all);
    let m = hold(n, &bytes[..k], buffer);
    if k < all {
        Fed {
            state: State::Content(left - k as u32, m),
            taken: k,
            event: Event::More,
        }
    } else {
        ended(State::Count(0), k, m)
    }
}

// A count, and how many bytes of it were at the front.
#[derive(Clone, Copy)]
struct Digits {
    value: u32,
    taken: usize,
}

// The count `v` with the byte as a digit more, where it goes on with it.
fn with_digit(v: u32, b: u8) -> Option<u32>
    ensures { result ≡ (if digit_on v b then Some (v * 10 + (b - 48)) else None) }
{
    if base::in_range(48, 57, b) & (v < 100_000) & !((v == 0) & (b == 48)) {
        Some(v * 10 + u32::from(b - 48))
    } else {
        None
    }
}

// The digits at the front that go on with the count `v`.
fn count_front(v: u32, bytes: &[u8]) -> Digits
    ensures { Counted v bytes.now result }
{
    let mut value = v;
    for (i, b) in bytes.iter().enumerate() {
        let Some(more) = with_digit(value, *b) else {
            return Digits { value, taken: i };
        };
        value = more;
    }
    Digits {
        value,
        taken: bytes.len(),
    }
}

// Whether the byte ends the count `v`.
fn space_on(v: u32, b: u8) -> bool
    ensures { result ≡ space_on v b }
{
    (b == 32) & (v != 0)
}

// `feed` before a counted frame's content.
fn from_count(v: u32, bytes: &[u8], buffer: &mut [u8]) -> Fed
    requires { line_limit ≤ length buffer.old }
    ensures { Feeds (State.Count v) bytes.now buffer.old result buffer.new }
{
    let Digits { value, taken } = count_front(v, bytes);
    let Some((b, rest)) = base::past(bytes, taken).split_first() else {
        return Fed {
            state: State::Count(value),
            taken,
            event: Event::More,
        };
    };
    if !space_on(value, *b) {
        return Fed {
            state: State::Ended,
            taken: taken + 1,
            event: Event::Refused(Refusal::BadCount),
        };
    }
    let r = from_content(value, 0, rest, buffer);
    Fed {
        taken: taken + 1 + r.taken,
        ..r
    }
}

// `feed` after a bad count: every byte gives 11.
fn from_ended(bytes: &[u8]) -> Fed
    ensures { result ≡ answer_of (up_to State.Ended [] bytes.now) }
{
    if bytes.is_empty() {
        Fed {
            state: State::Ended,
            taken: 0,
            event: Event::More,
        }
    } else {
        Fed {
            state: State::Ended,
            taken: 1,
            event: Event::Refused(Refusal::BadCount),
        }
    }
}

// Bytes of the stream, up to the end of a frame or to a refusal. What is held of a frame lies at the buffer's front.
pub fn feed(state: State, bytes: &[u8], buffer: &mut [u8]) -> Fed
    ensures { Served state bytes.now buffer.old result buffer.new }
{
    if buffer.len() < record::LINE_LIMIT {
        return Fed {
            state,
            taken: 0,
            event: Event::Refused(Refusal::OutputShort),
        };
    }
    match state {
        State::Count(v) => from_count(v, bytes, buffer),
        State::Content(left, n) => from_content(left, n, bytes, buffer),
        State::Line(n) => from_line(n, bytes, buffer),
        State::Ended => from_ended(bytes),
    }
}

// ---- for C

impl From<State> for StreamState {
    ghost from_gives = { λ s r. r ≡ numbers_of s };

    fn from(state: State) -> StreamState {
        match state {
            State::Count(v) => StreamState {
                stage: 1,
                left: v,
                came: 0,
            },
            State::Content(left, n) => StreamState {
                stage: 2,
                left,
                came: n,
            },
            State::Line(n) => StreamState {
                stage: 3,
                left: 0,
                came: n,
            },
            State::Ended => StreamState {
                stage: 4,
                left: 0,
                came: 0,
            },
        }
    }
}

impl TryFrom<StreamState> for State {
    type Error = Refusal;

    ghost try_from_gives = { λ x r. r ≡ state_of x };

    fn try_from(x: StreamState) -> Result<State, Refusal> {
        Ok(match x.stage {
            1 => State::Count(x.left),
            2 => State::Content(x.left, x.came),
            3 => State::Line(x.came),
            4 => State::Ended,
            _ => return Err(Refusal::BadSetting),
        })
    }
}

// `start` in numbers; a refusal has a state of zeros, which is none.
pub fn start_numbers(kind: u32) -> StartAnswer
    ensures { result ≡ start_answer_of (start_of kind) }
{
    match start(kind) {
        Ok(s) => StartAnswer {
            number: 0,
            state: StreamState::from(s),
        },
        Err(f) => StartAnswer {
            number: u32::from(f),
            state: StreamState {
                stage: 0,
                left: 0,
                came: 0,
            },
        },
    }
}

// What is told of `taken` bytes, with the state behind them.
fn told(taken: usize, state: StreamState, event: Event) -> FeedAnswer
    ensures { result ≡ feed_answer taken state event }
{
    let (number, frame, len) = match event {
        Event::More => (0, 0, 0),
        Event::Frame(len) => (0, 1, len),
        Event::Refused(f) => (u32::from(f), 0, 0),
    };
    FeedAnswer {
        number,
        frame,
        taken,
        len,
        state,
    }
}

// `feed` in numbers.
pub fn feed_numbers(x: StreamState, bytes: &[u8], buffer: &mut [u8]) -> FeedAnswer
    ensures { Splits x bytes.now buffer.old result buffer.new }
{
    match State::try_from(x) {
        Err(f) => told(0, x, Event::Refused(f)),
        Ok(_) if buffer.len() < record::LINE_LIMIT => {
            told(0, x, Event::Refused(Refusal::OutputShort))
        }
        Ok(s) => {
            let r = feed(s, bytes, buffer);
            told(r.taken, StreamState::from(r.state), r.event)
        }
    }
}

// `finish` in numbers.
pub fn finish_numbers(x: StreamState) -> FinishAnswer
    ensures { result ≡ finish_answer_of (state_of x) }
{
    match State::try_from(x) {
        Ok(s) => FinishAnswer {
            number: 0,
            unfinished: finish(s),
        },
        Err(f) => FinishAnswer {
            number: u32::from(f),
            unfinished: 0,
        },
    }
}
