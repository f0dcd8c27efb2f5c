// Where a line breaks, for people: the line up to there and a little further, a caret under the first byte that is wrong, and in words what would have been
// right in its place. It is given the beginning that is right and what stands behind it, and tells from the beginning which part of a line it ends in. Nothing
// is promised of what is written: no answer goes by it.
#![tactic(auto)]

use program::Process;

// Which part of a line a beginning ends in.
#[derive(Clone, Copy)]
enum Part {
    Open,
    Priority,
    Version,
    Stamp,
    // host, app name, process id and message id
    Field,
    Data,
    NoElements,
    Id,
    Name,
    Quote,
    Value,
    // behind a backslash in a value
    Escape,
    ValueEnd,
    ElementEnd,
    Message,
}

// A part, where it starts, and how many header fields are behind it.
#[derive(Clone, Copy)]
struct Place {
    part: Part,
    start: usize,
    fields: u8,
}

// ---- small things

// A byte of a text, or 0 behind its end.
fn byte(s: &[u8], i: usize) -> u8 {
    s.get(i).copied().unwrap_or(0)
}

// The byte with so many behind it, or 0.
fn last(s: &[u8], behind: usize) -> u8 {
    s.iter().rev().nth(behind).copied().unwrap_or(0)
}

fn say(process: &Process, words: &[u8]) -> bool {
    frames::write(process, b"list", words)
}

// As much of a text, if it is that long.
fn say_front(process: &Process, text: &[u8], n: usize) -> bool {
    match text.get(..n) {
        Some(front) => say(process, front),
        None => false,
    }
}

// A digit of a range, given by its characters.
fn say_digit(process: &Process, low: u8, high: u8) -> bool {
    if low == high {
        let mut text = *b"the digit .";
        text[10] = low;
        say(process, &text)
    } else {
        let mut text = *b"a digit . to .";
        text[8] = low;
        text[13] = high;
        say(process, &text)
    }
}

// ---- which part it is

// Where the beginning stands behind a byte, which `next` is behind.
fn step(p: Place, b: u8, next: usize) -> Place {
    let part = match (p.part, b) {
        (Part::Open, _) => Part::Priority,
        (Part::Priority, b'>') => Part::Version,
        (Part::Version, b' ') => Part::Stamp,
        (Part::Stamp, b' ') => Part::Field,
        (Part::Field, b' ') if p.fields < 3 => {
            return Place {
                part: Part::Field,
                start: next,
                fields: p.fields + 1,
            };
        }
        (Part::Field, b' ') => Part::Data,
        (Part::Data, b'-') => Part::NoElements,
        (Part::NoElements, _) => Part::Message,
        (Part::Data, b'[') | (Part::ElementEnd, b'[') => Part::Id,
        (Part::Id, b']') | (Part::ValueEnd, b']') => Part::ElementEnd,
        (Part::Id, b' ') | (Part::ValueEnd, b' ') => Part::Name,
        (Part::Name, b'=') => Part::Quote,
        (Part::Quote, _) | (Part::Escape, _) => Part::Value,
        (Part::Value, b'"') => Part::ValueEnd,
        (Part::Value, b'\\') => Part::Escape,
        (Part::ElementEnd, b' ') => Part::Message,
        _ => return p,
    };
    Place {
        part,
        start: next,
        ..p
    }
}

fn place_of(begun: &[u8]) -> Place {
    let mut p = Place {
        part: Part::Open,
        start: 0,
        fields: 0,
    };
    for (i, b) in begun.iter().enumerate() {
        p = step(p, *b, i + 1);
    }
    p
}

// ---- what would have been right there

fn say_priority(process: &Process, t: &[u8]) -> bool {
    match t {
        [] => say(process, b"a digit: the priority is 0 to 191"),
        [b'0', ..] | [_, _, _] => say(process, b"'>': the priority is 0 to 191"),
        [b'1', b'9'] => say(process, b"the digit 0 or 1, or '>'"),
        [b'1', _] => say(process, b"a digit or '>'"),
        [_, _] => say(process, b"'>': the priority is 0 to 191"),
        _ => say(process, b"a digit or '>'"),
    }
}

fn say_version(process: &Process, n: usize) -> bool {
    match n {
        0 => say_digit(process, b'1', b'9'),
        1 | 2 => say(process, b"a digit or a space"),
        _ => say(process, b"a space: the version has at most three digits"),
    }
}

// Has the month of `YYYY-MM` such a day?
fn has_day(t: &[u8], day: u32) -> bool {
    if t.len() < 7 {
        return false;
    }
    match (digits::four_digits(t), digits::two_digits(&t[5..])) {
        (Some((year, _)), Some((month, _))) => calendar::is_date(year, month, day),
        _ => false,
    }
}

// The second digit of a day.
fn say_day(process: &Process, t: &[u8]) -> bool {
    match byte(t, 8) {
        b'0' => say_digit(process, b'1', b'9'),
        b'2' if !has_day(t, 29) => say_digit(process, b'0', b'8'),
        tens if tens < b'3' => say(process, b"a digit"),
        _ if has_day(t, 31) => say_digit(process, b'0', b'1'),
        _ => say_digit(process, b'0', b'0'),
    }
}

fn say_date(process: &Process, t: &[u8]) -> bool {
    match t.len() {
        0..=3 => say(process, b"a digit"),
        4 | 7 => say(process, b"'-'"),
        5 => say_digit(process, b'0', b'1'),
        6 if byte(t, 5) == b'0' => say_digit(process, b'1', b'9'),
        6 => say_digit(process, b'0', b'2'),
        8 if has_day(t, 30) => say_digit(process, b'0', b'3'),
        8 => say_digit(process, b'0', b'2'),
        _ => say_day(process, t),
    }
}

// A byte of `hh:mm` or `hh:mm:ss`, with so many bytes of it in front; `tens` is the first.
fn say_clock(process: &Process, n: usize, tens: u8) -> bool {
    match n {
        0 => say_digit(process, b'0', b'2'),
        1 if tens == b'2' => say_digit(process, b'0', b'3'),
        2 | 5 => say(process, b"':'"),
        3 | 6 => say_digit(process, b'0', b'5'),
        _ => say(process, b"a digit"),
    }
}

// Behind the seconds: a fraction, and then the zone; `t` has what stands from the point, the `Z` or the sign on.
fn say_zone(process: &Process, t: &[u8]) -> bool {
    match t {
        [] => say(process, b"'.', 'Z', '+' or '-'"),
        [b'.', fraction @ ..] => say_fraction(process, fraction),
        _ => say_zone_end(process, t),
    }
}

// Behind the point.
fn say_fraction(process: &Process, t: &[u8]) -> bool {
    match t.iter().position(|b| !b.is_ascii_digit()) {
        Some(zone) => say_zone_end(process, &t[zone..]),
        None if t.len() == 0 => say(process, b"a digit"),
        None if t.len() < 6 => say(process, b"a digit, 'Z', '+' or '-'"),
        None => say(
            process,
            b"'Z', '+' or '-': a fraction has at most six digits",
        ),
    }
}

fn say_zone_end(process: &Process, t: &[u8]) -> bool {
    match t {
        [] => say(process, b"'Z', '+' or '-'"),
        [b'Z', ..] => say(process, b"a space"),
        [_, clock @ ..] if clock.len() < 5 => say_clock(process, clock.len(), byte(clock, 0)),
        _ => say(process, b"a space"),
    }
}

fn say_stamp(process: &Process, t: &[u8]) -> bool {
    match t.len() {
        0 => say(process, b"a digit or '-'"),
        _ if byte(t, 0) == b'-' => say(process, b"a space"),
        1..=9 => say_date(process, t),
        10 => say(process, b"'T'"),
        n if n < 19 => say_clock(process, n - 11, byte(t, 11)),
        _ => say_zone(process, &t[19..]),
    }
}

fn most_of(fields: u8) -> usize {
    match fields {
        0 => 255,
        1 => 48,
        2 => 128,
        _ => 32,
    }
}

fn say_field(process: &Process, n: usize, fields: u8) -> bool {
    if n == 0 {
        say(process, b"a visible ASCII character")
    } else if n < most_of(fields) {
        say(process, b"a visible ASCII character or a space")
    } else {
        say(process, b"a space: this field is as long as it can be")
    }
}

// In an id. A byte that could stand there, if no id were used, stands there because one is.
fn say_id(process: &Process, n: usize, b: u8) -> bool {
    if b == 0 {
        say(
            process,
            b"the rest of an id that is not used yet, then a space or ']'",
        )
    } else if (n == 0) & ((b == b' ') | (b == b']')) {
        say(process, b"a character of an id")
    } else if (n < 32) & base::in_range(32, 126, b) & (b != b'=') & (b != b'"') {
        say(process, b"an id that is not used yet")
    } else if n < 32 {
        say(
            process,
            b"a visible ASCII character but '=' and '\"', or behind the id a space or ']'",
        )
    } else {
        say(process, b"a space or ']': an id has at most 32 bytes")
    }
}

fn say_name(process: &Process, n: usize) -> bool {
    match n {
        0 => say(process, b"a character of a parameter's name"),
        1..=31 => say(process, b"a character of a parameter's name, or '='"),
        _ => say(process, b"'=': a name has at most 32 bytes"),
    }
}

// Does a text end in a character of UTF-8 that is not whole?
fn is_open(s: &[u8]) -> bool {
    let one = last(s, 0);
    let two = last(s, 1);
    let three = last(s, 2);
    (192 <= one) | ((128 <= one) & (224 <= two)) | ((128 <= one) & (128 <= two) & (240 <= three))
}

// In a text that is UTF-8, where a byte of it is wrong.
fn say_character(process: &Process, begun: &[u8]) -> bool {
    if is_open(begun) {
        say(process, b"the next byte of a character of UTF-8")
    } else {
        say(process, b"a character of UTF-8")
    }
}

fn say_value(process: &Process, begun: &[u8], b: u8) -> bool {
    match b {
        b']' => say(process, b"a backslash before ']', or '\"' to end the value"),
        0 => say(process, b"the rest of the value, then '\"'"),
        _ => say_character(process, begun),
    }
}

// What would have been right behind a beginning, of whose last part `t` are the bytes; `b` is what stands there, or 0 where the line ends.
fn say_words(process: &Process, begun: &[u8], t: &[u8], p: Place, b: u8) -> bool {
    match p.part {
        Part::Open => say(process, b"'<'"),
        Part::Priority => say_priority(process, t),
        Part::Version => say_version(process, t.len()),
        Part::Stamp => say_stamp(process, t),
        Part::Field => say_field(process, t.len(), p.fields),
        Part::Data => say(process, b"'-' or '['"),
        Part::NoElements => say(process, b"a space, or the end of the line"),
        Part::Id => say_id(process, t.len(), b),
        Part::Name => say_name(process, t.len()),
        Part::Quote => say(process, b"'\"'"),
        Part::Value => say_value(process, begun, b),
        Part::Escape => say_character(process, begun),
        Part::ValueEnd => say(process, b"a space or ']'"),
        Part::ElementEnd => say(process, b"'[', a space, or the end of the line"),
        Part::Message => say_character(process, begun),
    }
}

// ---- what is seen of the line

// A byte as it is shown: in one column.
fn shown(b: u8) -> u8 {
    if base::in_range(32, 126, b) { b } else { b'.' }
}

fn put(out: &mut [u8], at: usize, b: u8) -> usize {
    if at < out.len() {
        out[at] = b;
        at + 1
    } else {
        at
    }
}

// Puts bytes of the line.
fn put_bytes(out: &mut [u8], at: usize, bytes: &[u8]) -> usize {
    let mut n = at;
    for b in bytes {
        n = put(out, n, shown(*b));
    }
    n
}

// The caret and the words, with so many columns in front.
fn write_words(process: &Process, begun: &[u8], rest: &[u8], column: usize) -> bool {
    let blank = [b' '; 96];
    let ends: &[u8] = if rest.is_empty() {
        b"^ the line ends; wanted: "
    } else {
        b"^ wanted: "
    };
    let p = place_of(begun);
    say_front(process, &blank, column)
        && say(process, ends)
        && say_words(
            process,
            begun,
            &begun[p.start.min(begun.len())..],
            p,
            byte(rest, 0),
        )
        && say(process, b"\n")
}

// Points at the byte behind `begun`, the longest beginning of a line that is right, where `rest` is what the line goes on with: two lines of text. Answers
// whether they could be written.
pub fn point(process: &Process, begun: &[u8], rest: &[u8]) -> bool {
    // at most 60 bytes of the beginning are seen, behind dots where there are more, and 16 behind the break
    let from = begun.len().saturating_sub(60);
    let mut text = [b' '; 96];
    let dots = if from == 0 {
        4
    } else {
        put_bytes(&mut text, 4, b"...")
    };
    let column = put_bytes(&mut text, dots, &begun[from..]);
    let end = put_bytes(&mut text, column, &rest[..rest.len().min(16)]);
    let all = put(&mut text, end, b'\n');
    say_front(process, &text, all) && write_words(process, begun, rest, column)
}
