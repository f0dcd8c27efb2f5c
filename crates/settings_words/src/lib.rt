// A site's settings file for a person: each record shown as a line, and a record written from words.
#![tactic(auto)]

ghost use Rattle.std.specs.Prelude.{◌≡◌, ◌+◌, ◌-◌, ◌≤◌, ◌<◌, ◌^◌, length, take};
ghost use Rattle.std.proofs.Math.IntN.{sub_ℕ};
ghost use Rattle.settings.specs.Record.{record_size, host_room};
ghost use Rattle.settings.specs.File.{gate_of};
ghost use Rattle.settings_words.specs.Words.{Last, number_of, sign_len, no_offset, minutes_of, offset_of, last_variant, first_bad};

use program::{Process, Status, Takes, Wish};
use settings::SettingsAnswer;

// A word of `./settings-write`.
#[derive(Clone, Copy)]
pub enum Field {
    Version,
    Gate,
    Year,
    Offset,
    Variant,
    Host,
}

// The words before the host, as numbers.
#[derive(Clone, Copy)]
pub struct Words {
    pub version: u32,
    pub gate: u32,
    pub year: u32,
    pub offset: i32,
    pub variant: u32,
}

// The most bytes of a file that is shown: 2,048 records.
const FILE_LIMIT: usize = 65536;

// What a word is that writes no number, which is out of every range.
const NO_NUMBER: u32 = u32::MAX;

// The same of minutes.
const NO_OFFSET: u32 = 1440;

// ---- showing

// The gate of a record, whatever else it holds.
fn gate_of(bytes: &[u8]) -> u32
    requires { length bytes.now ≡ record_size }
    ensures { result ≡ gate_of bytes.now }
{
    u32::from(u16::from_le_bytes([bytes[6], bytes[7]]))
}

// Whether no record of the gate stands in the rest of a file, so that the one before it counts.
fn is_last(rest: &[u8], gate: u32) -> bool
    ensures { Last gate rest.now result }
{
    let answer = settings::khamdoriem_settings_read(rest, gate);
    answer.number == 9
}

fn say_named(process: &mut Process, name: &[u8], n: u32) {
    program::say(process, name);
    program::say_decimal(process, n as u64);
}

// Minutes with their sign, if they are negative.
fn say_offset(process: &mut Process, offset: i32) {
    program::say(process, b" offset ");
    if offset < 0 {
        program::say(process, b"-");
    }
    program::say_decimal(process, u64::from(offset.unsigned_abs()));
}

// The host of a record. None has words of its own: a host may be `-`.
fn say_host(process: &mut Process, bytes: &[u8], len: usize)
    requires bytes_len { length bytes.now ≡ record_size }
    requires len_le_host_room { len ≤ host_room }
{
    if len == 0 {
        program::say(process, b" no host");
    } else {
        program::say(process, b" host ");
        program::say(process, &bytes[8..8 + len]);
    }
}

fn say_settings(process: &mut Process, bytes: &[u8], s: SettingsAnswer)
    requires bytes_len { length bytes.now ≡ record_size }
    requires host_len_bound { s.host_len ≤ host_room }
{
    say_named(process, b" version ", s.version);
    say_named(process, b" year ", s.year);
    say_offset(process, s.offset);
    say_named(process, b" variant ", s.variant);
    say_host(process, bytes, s.host_len);
}

// What the reader answers to a record by itself.
fn say_answer(process: &mut Process, bytes: &[u8], gate: u32)
    requires { length bytes.now ≡ record_size }
{
    let answer = settings::khamdoriem_settings_read(bytes, gate);
    if answer.number == 0 {
        say_settings(process, bytes, answer);
    } else {
        say_named(process, b" refuse ", answer.number);
    }
    program::say(process, b"\n");
}

// The line of a record, which is the `number`th and has `rest` behind it.
fn show_record(process: &mut Process, number: usize, bytes: &[u8], rest: &[u8])
    requires { length bytes.now ≡ record_size }
{
    let gate = gate_of(bytes);
    program::say_decimal(process, number as u64);
    say_named(process, b" gate ", gate);
    if is_last(rest, gate) {
        program::say(process, b" counts");
    } else {
        program::say(process, b" replaced");
    }
    say_answer(process, bytes, gate);
}

fn show_records(process: &mut Process, file: &[u8]) {
    for i in 0..file.len() / settings::RECORD_SIZE {
        let at = i * settings::RECORD_SIZE;
        let end = at + settings::RECORD_SIZE;
        show_record(process, i + 1, &file[at..end], &file[end..]);
    }
}

// Whether standard input, of which this came, is a settings file, and shows it.
fn is_shown(process: &mut Process, file: &[u8]) -> bool {
    if FILE_LIMIT < file.len() {
        program::complain(
            process,
            b"settings",
            b"standard input has over 65,536 bytes",
        );
        return false;
    }
    if !program::is_at_end(process, b"settings") {
        return false;
    }
    if file.len() % settings::RECORD_SIZE != 0 {
        program::complain(
            process,
            b"settings",
            b"standard input is no settings file: its length is no multiple of 32",
        );
        return false;
    }
    show_records(process, file);
    true
}

// What `./settings` does in memory that it is lent, which is longer than the longest file.
pub fn show(process: &mut Process, file: &mut [u8]) -> Status {
    let a = program::arguments(
        process,
        Takes {
            forms: false,
            places: false,
        },
    );
    let help = *b"\nWrites a line for each record of a site's settings file, 32 bytes each:\n\
        \x20   N gate G counts version V year Y offset MINUTES variant P host HOST\n\
        N is the number of the record, from 1. In place of 'counts' stands 'replaced' where\n\
        a later record has the same gate: the last one counts. Where there is no default,\n\
        'no host' stands at the end. A record that the reader refuses has 'refuse 14' (its\n\
        version is not 1 or 2) or 'refuse 15' (a field is out of range, or a reserved byte\n\
        is not zero) in the place of what stands behind the mark.\n\n\
        Exit status: 0 all is shown; 1 standard input is no multiple of 32 bytes or has\n\
        over 65,536, or reading or writing failed, and standard error says which; 2 an\n\
        argument is not known.\n";
    let usage = *b"usage: ./settings < FILE\n";
    if let Some(status) = program::starts(process, a, b"settings", &usage, &help) {
        return status;
    }
    let n = program::read_full(process, file);
    let ok = is_shown(process, &file[0..n]);
    program::end(process, b"settings", ok)
}

// ---- writing

// The number that a word writes.
fn number_of(text: &[u8]) -> u32
    ensures { result ≡ number_of text.now }
{
    if 10 < text.len() {
        return NO_NUMBER;
    }
    let Some((value, len)) = digits::digits(text, NO_NUMBER) else {
        return NO_NUMBER;
    };
    if len < text.len() {
        return NO_NUMBER;
    }
    value
}

// How many bytes of a word are a sign.
fn sign_len(text: &[u8]) -> usize
    ensures value { result ≡ sign_len text.now }
    ensures upper_bound { result ≤ length text.now }
{
    if base::is_at(text, 0, b'-') | base::is_at(text, 0, b'+') {
        1
    } else {
        0
    }
}

// The minutes that a word writes behind its sign.
fn minutes_of(text: &[u8]) -> u32
    ensures value { result ≡ minutes_of text.now }
    ensures upper_bound { result ≤ no_offset }
{
    number_of(base::past(text, sign_len(text))).min(NO_OFFSET)
}

// The offset that a word writes: those with `-` are west, and `+` may stand before those to the east.
fn offset_of(text: &[u8]) -> i32
    ensures { result ≡ offset_of text.now }
{
    let minutes = minutes_of(text) as i32;
    if base::is_at(text, 0, b'-') {
        -minutes
    } else {
        minutes
    }
}

// The greatest variant of a version.
fn last_variant(version: u32) -> u32
    ensures { result ≡ last_variant version }
{
    if version == 1 { 0 } else { 2 }
}

// The first word that is out of its range; the host where no other is.
fn first_bad(w: Words) -> Field
    ensures { result ≡ first_bad w }
{
    if !((1 <= w.version) & (w.version <= 2)) {
        Field::Version
    } else if 65535 < w.gate {
        Field::Gate
    } else if calendar::LAST_YEAR < w.year {
        Field::Year
    } else if !calendar::is_offset(w.offset) {
        Field::Offset
    } else if last_variant(w.version) < w.variant {
        Field::Variant
    } else {
        Field::Host
    }
}

// How many bytes of the `i`th argument are in `text`: all of `text` where it is longer.
fn word_len(process: &Process, i: usize, text: &mut [u8]) -> usize
    ensures in_bounds { result ≤ length text.new }
    ensures prefix { result ≡ length (take result text.new) }
{
    match program::argument(process, i, text) {
        Ok(n) => n,
        Err(_) => text.len(),
    }
}

// What `read` takes the `i`th argument for.
fn word_at<T, F: Fn(&[u8]) -> T>(process: &Process, i: usize, read: F) -> T
    requires { F.IsAlwaysCallable read }
{
    let mut text = [0u8; 64];
    let n = word_len(process, i, &mut text);
    read(&text[0..n])
}

// Says which word is wrong, and what it may be.
fn refuse(process: &Process, f: Field, usage: &[u8]) -> Status {
    let name = *b"settings-write";
    match f {
        Field::Version => program::misused(process, &name, b"VERSION is 1 or 2", usage),
        Field::Gate => program::misused(process, &name, b"GATE is 0 to 65535", usage),
        Field::Year => program::misused(process, &name, b"YEAR is 0 to 9999", usage),
        Field::Offset => program::misused(
            process,
            &name,
            b"OFFSET is -1439 to 1439, in minutes",
            usage,
        ),
        Field::Variant => program::misused(
            process,
            &name,
            b"VARIANT is 0 to 2, and in version 1 it is 0",
            usage,
        ),
        Field::Host => program::misused(
            process,
            &name,
            b"HOST has at most 20 bytes, each of them 33 to 126",
            usage,
        ),
    }
}

// Writes the record of the words and of a host, which may be empty.
fn write_record(process: &mut Process, w: Words, host: &[u8], usage: &[u8]) -> Status {
    let mut text = [0u8; 32];
    let written = settings::write(
        w.version, w.gate, w.year, w.offset, w.variant, host, &mut text,
    );
    match written {
        Err(_) => refuse(process, first_bad(w), usage),
        Ok(_) => {
            program::say(process, &text);
            program::end(process, b"settings-write", true)
        }
    }
}

// The same of the host, which is none where there are five words.
fn host_len(process: &Process, i: usize, count: usize, text: &mut [u8]) -> usize
    requires { i + count < 2 ^ 64 }
    ensures in_bounds { result ≤ length text.new }
    ensures prefix { result ≡ length (take result text.new) }
{
    if count < 6 {
        0
    } else {
        word_len(process, i + 5, text)
    }
}

// Writes the record of the words from the `i`th argument on, of `count`.
fn write_words(process: &mut Process, i: usize, count: usize, usage: &[u8]) -> Status
    requires le_count { 5 ≤ count }
    requires count_bound { i + count < 2 ^ 64 }
{
    let w = Words {
        version: word_at(process, i, number_of),
        gate: word_at(process, i + 1, number_of),
        year: word_at(process, i + 2, number_of),
        offset: word_at(process, i + 3, offset_of),
        variant: word_at(process, i + 4, number_of),
    };
    let mut host = [0u8; 64];
    let n = host_len(process, i, count, &mut host);
    write_record(process, w, &host[0..n], usage)
}

fn miscounted(process: &Process, usage: &[u8]) -> Status {
    program::misused(
        process,
        b"settings-write",
        b"5 or 6 words are asked for",
        usage,
    )
}

// What `./settings-write` does.
pub fn write(process: &mut Process) -> Status {
    let a = program::arguments(
        process,
        Takes {
            forms: false,
            places: false,
        },
    );
    let usage = *b"usage: ./settings-write VERSION GATE YEAR OFFSET VARIANT [HOST] >> FILE\n";
    let help = *b"\nWrites one record of a site's settings file, 32 bytes, to standard output:\n\
        \x20   VERSION   1 or 2\n\
        \x20   GATE      0 to 65535\n\
        \x20   YEAR      of dates that name none, 0 to 9999\n\
        \x20   OFFSET    of clocks that name no zone, in minutes, -1439 to 1439, east positive\n\
        \x20   VARIANT   0 either protocol, 1 RFC 3164, 2 RFC 5424; in version 1 it is 0\n\
        \x20   HOST      of lines that name none, at most 20 bytes, each of them 33 to 126;\n\
        \x20             without it, or where it is empty, there is no default\n\
        The last record of a gate counts: one that is appended to a file replaces those\n\
        before it.\n\n\
        Exit status: 0 it is written; 1 it could not be; 2 the arguments are wrong. Then\n\
        nothing is written, and standard error says which one is wrong.\n";
    let wish = a.wish;
    let Wish::Unknown(i) = wish else {
        if let Some(status) = program::starts(process, a, b"settings-write", &usage, &help) {
            return status;
        }
        return miscounted(process, &usage);
    };
    let count = program::argument_count(process).saturating_sub(i);
    if count < 5 || 6 < count {
        return miscounted(process, &usage);
    }
    write_words(process, i, count, &usage)
}
