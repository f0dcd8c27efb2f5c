// A case in words: the call, and each thing that its answer has, a line each.
#![tactic(auto)]

use case_calls::{Left, Settings, printing, reading, strict_reading};
use case_text::words::{say, say_number};
use program::Process;
use record::{Place, Protocol, Record};

// What the strict reader adds after a record's words: the place of the timestamp's text, and the mark of a message.
const TEXT_WORD: usize = layout::WORD_COUNT;

const MARK_WORD: usize = layout::STRICT_WORD_COUNT - 1;

fn say_signed(process: &mut Process, before: &[u8], n: i64, after: &[u8]) {
    say(process, before);
    say_number(
        process,
        if n < 0 { b"-" } else { b"" },
        n.unsigned_abs(),
        after,
    );
}

// The text at a place, between its label and the line's end.
fn say_text(process: &mut Process, label: &[u8], line: &[u8], start: usize, len: usize) {
    let rest = &line[start.min(line.len())..];
    say(process, label);
    say(process, &rest[..len.min(rest.len())]);
    say(process, b"\n");
}

// The text of a record's field, if there is one.
fn say_place(process: &mut Process, label: &[u8], line: &[u8], place: Place) {
    if place.present {
        say_text(process, label, line, place.start, place.len);
    }
}

// The fields before the texts.
fn show_front(process: &mut Process, r: &Record) {
    match r.protocol {
        Protocol::Rfc3164 => say(process, b"  RFC 3164\n"),
        Protocol::Rfc5424(version) => say_number(
            process,
            b"  RFC 5424, version ",
            u64::from(version),
            b"\n",
        ),
    }
    if let Some(n) = r.facility {
        say_number(process, b"  facility ", u64::from(n), b"\n");
    }
    if let Some(n) = r.severity {
        say_number(process, b"  severity ", u64::from(n), b"\n");
    }
    if let Some(t) = r.timestamp {
        say_signed(process, b"  seconds ", t.seconds, b"\n");
        say_number(process, b"  nanoseconds ", u64::from(t.nanos), b"\n");
        say_number(process, b"  digits ", u64::from(t.digits), b"\n");
        say_signed(process, b"  offset ", i64::from(t.offset), b"\n");
    }
}

fn show_texts(process: &mut Process, line: &[u8], r: &Record) {
    say_place(process, b"  host ", line, r.host);
    say_place(process, b"  app ", line, r.app);
    say_place(process, b"  process id ", line, r.procid);
    say_place(process, b"  message id ", line, r.msgid);
}

fn show_message(process: &mut Process, line: &[u8], r: &Record) {
    say_text(process, b"  message ", line, r.message.start, r.message.len);
}

// The record. (A reader leaves none that is not well formed.)
fn record_of(memory: &[u8]) -> Record {
    if layout::holds_record(memory) {
        layout::record_at(memory)
    } else {
        record::empty_record()
    }
}

// The place of the timestamp's text.
fn place_of<const SIZE: usize>(left: &Left<SIZE>) -> Place {
    Place {
        present: left.word(TEXT_WORD) == 1,
        start: left.word(TEXT_WORD + 1) as usize,
        len: left.word(TEXT_WORD + 2) as usize,
    }
}

// The rows of both tables.
fn show_data<const SIZE: usize>(process: &mut Process, line: &[u8], left: &Left<SIZE>) {
    for [start, len] in left.elements() {
        say_text(process, b"  element ", line, *start, *len);
    }
    for p in left.params() {
        say_number(process, b"  parameter of element ", p.element as u64, b"\n");
        say_text(process, b"    name ", line, p.name_start, p.name_len);
        say_text(process, b"    value ", line, p.value_start, p.value_len);
    }
}

fn show_printed(process: &mut Process, line: &[u8], s: Settings) {
    let mut out = [0u8; 16384];
    if let Ok(text) = printing(line, s, line.len(), &mut out) {
        say(process, b"  prints ");
        say(process, text);
        say(process, b"\n");
    }
}

fn show_refusal(process: &mut Process, number: u32) {
    say_number(process, b"  refused ", u64::from(number), b"\n");
}

// A loose reading.
pub fn show_reading(process: &mut Process, line: &[u8], s: Settings) {
    match reading(line, s, 64, 256) {
        Ok(left) => {
            let r = record_of(&left.memory);
            if left.whole == 1 {
                say(process, b"  whole\n");
            }
            show_front(process, &r);
            show_texts(process, line, &r);
            show_message(process, line, &r);
            show_data(process, line, &left);
            show_printed(process, line, s);
        }
        Err(number) => show_refusal(process, number),
    }
}

// A strict reading.
pub fn show_strict(process: &mut Process, line: &[u8]) {
    match strict_reading(line) {
        Ok(left) => {
            let r = record_of(&left.memory);
            show_front(process, &r);
            say_place(process, b"  timestamp ", line, place_of(&left));
            show_texts(process, line, &r);
            if left.word(MARK_WORD) == 1 {
                show_message(process, line, &r);
            }
            show_data(process, line, &left);
        }
        Err(number) => show_refusal(process, number),
    }
}
