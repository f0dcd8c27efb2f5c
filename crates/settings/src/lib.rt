// The settings file of a site: records of 32 bytes, each with the year, offset, variant and default host of a gate.
#![tactic(auto)]

ghost use Rattle.std.specs.Prelude.{◌≡◌, true, ◌++◌, ◌+◌, ◌-◌, ◌≤◌, ◌<◌, ◌^◌, length, replicate};
ghost use Rattle.base.specs.Choose.{within};
ghost use Rattle.base.specs.Runs.{run};
ghost use Rattle.base.specs.Fills.{filled};
ghost use Rattle.calendar.specs.Calendar.{valid_offset};
ghost use Rattle.output.specs.Fits.{Fits};
ghost use Rattle.output.specs.Output.{Wrote};
ghost use Rattle.settings.specs.Record.{meant, last_version, is_version, is_variant, host_room, all_within, in_range, record_size, pair, bits, record_of};
ghost use Rattle.settings.specs.File.{IsWhole, Reads};
ghost use Rattle.settings.specs.Writes.{Writes};
ghost use Rattle.settings.specs.Numbers.{settings_answer_of, ReadsNumbers, WritesNumbers};
ghost use Rattle.settings.specs.Steps.{signed, PairAt, Seeks, FieldsAt, sound, Takes, front_text, host_text, end_text};

use record::{OutputAnswer, Refusal, Span};

// The settings of a gate. The host is a place in the file, of length 0 where there is none.
#[derive(Clone, Copy)]
pub struct Settings {
    pub version: u32,
    pub gate: u32,
    pub year: u32,
    pub offset: i32,
    pub variant: u32,
    pub host: Span,
}

// The same as a C caller gets it: a number (0: read) and the settings, zeros where it is refused.
#[repr(C)]
#[derive(Clone, Copy)]
pub struct SettingsAnswer {
    pub number: u32,
    pub version: u32,
    pub gate: u32,
    pub year: u32,
    pub offset: i32,
    pub variant: u32,
    pub host_start: usize,
    pub host_len: usize,
}

// How many bytes a record has.
pub const RECORD_SIZE: usize = 32;

// The greatest version.
const LAST_VERSION: u32 = 2;

// Where each field starts.
const YEAR_PLACE: usize = 2;

const OFFSET_PLACE: usize = 4;

const GATE_PLACE: usize = 6;

const HOST_PLACE: usize = 8;

const HOST_ROOM: usize = 20;

const VARIANT_PLACE: usize = HOST_PLACE + HOST_ROOM;

const END_PLACE: usize = VARIANT_PLACE + 1;

// ---- the ranges

fn is_version(greatest: u32, version: u32) -> bool
    ensures { result ≡ is_version greatest version }
{
    (1 <= version) & (version <= greatest)
}

fn is_variant(version: u32, variant: u32) -> bool
    ensures { result ≡ is_variant version variant }
{
    if version == 1 {
        variant == 0
    } else {
        variant <= 2
    }
}

// Whether every byte is in the range.
fn all_within(low: u8, high: u8, s: &[u8]) -> bool
    ensures { result ≡ all_within low high s.now }
{
    s.iter().all(|b| base::in_range(low, high, *b))
}

// Whether every field but the version is in its range.
fn is_in_range(version: u32, gate: u32, year: u32, offset: i32, variant: u32, host: &[u8]) -> bool
    ensures { result ≡ in_range (meant version gate year offset variant host.now) }
{
    (gate <= 65535)
        & (year <= calendar::LAST_YEAR)
        & calendar::is_offset(offset)
        & is_variant(version, variant)
        & ((host.len() <= HOST_ROOM) & all_within(33, 126, host))
}

// ---- reading

// The number of the two bytes from `at` on, the low one first.
fn pair_at(s: &[u8], at: usize) -> u16
    requires { at + 2 ≤ length s.now }
    ensures { PairAt s.now at result }
{
    u16::from_le_bytes([s[at], s[at + 1]])
}

// The last record of the gate, sought from the end.
fn last_of(file: &[u8], gate: u32) -> Option<usize>
    requires { IsWhole file.now }
    ensures { Seeks gate file.now result }
{
    for i in (0..file.len() / RECORD_SIZE).rev() {
        if u32::from(pair_at(file, i * RECORD_SIZE + GATE_PLACE)) == gate {
            return Some(i);
        }
    }
    None
}

// A signed number of 16 bits.
fn offset_of(n: u16) -> i32
    ensures { result ≡ signed n }
{
    i32::from(n.cast_signed())
}

// The fields of a record that starts at `start` in its file, whatever they hold.
fn fields_at(bytes: &[u8], start: usize) -> Settings
    requires bytes_len { length bytes.now ≡ record_size }
    requires record_size_bound { start + record_size < 2 ^ 64 }
    ensures { FieldsAt bytes.now start result }
{
    Settings {
        version: u32::from(bytes[0]),
        gate: u32::from(pair_at(bytes, GATE_PLACE)),
        year: u32::from(pair_at(bytes, YEAR_PLACE)),
        offset: offset_of(pair_at(bytes, OFFSET_PLACE)),
        variant: u32::from(bytes[VARIANT_PLACE]),
        host: Span {
            start: start + HOST_PLACE,
            len: usize::from(bytes[1]),
        },
    }
}

// Whether a record's fields are in range, and the bytes behind its host and its last three are zero.
fn is_sound(bytes: &[u8], s: Settings) -> bool
    requires { length bytes.now ≡ record_size }
    ensures { result ≡ sound bytes.now s }
{
    let len = s.host.len;
    if HOST_ROOM < len {
        return false;
    }
    let end = HOST_PLACE + len;
    is_in_range(
        s.version,
        s.gate,
        s.year,
        s.offset,
        s.variant,
        &bytes[HOST_PLACE..end],
    ) & all_within(0, 0, &bytes[end..VARIANT_PLACE])
        & all_within(0, 0, &bytes[END_PLACE..RECORD_SIZE])
}

// What is answered of the chosen record, which starts at `start` in its file.
fn take_record(bytes: &[u8], start: usize, greatest: u32) -> Result<Settings, Refusal>
    requires greatest_le_last_version { greatest ≤ last_version }
    requires bytes_len { length bytes.now ≡ record_size }
    requires record_size_bound { start + record_size < 2 ^ 64 }
    ensures { Takes greatest bytes.now start result }
{
    let s = fields_at(bytes, start);
    if !is_version(greatest, s.version) {
        Err(Refusal::UnknownVersion)
    } else if !is_sound(bytes, s) {
        Err(Refusal::BadField)
    } else {
        Ok(s)
    }
}

fn read_up_to(greatest: u32, file: &[u8], gate: u32) -> Result<Settings, Refusal>
    requires { greatest ≤ last_version }
    ensures { Reads greatest file.now gate result }
{
    if file.len() % RECORD_SIZE != 0 {
        return Err(Refusal::BadLength);
    }
    let Some(i) = last_of(file, gate) else {
        return Err(Refusal::NotFound);
    };
    let start = i * RECORD_SIZE;
    let end = start + RECORD_SIZE;
    take_record(&file[start..end], start, greatest)
}

// The settings of a gate: those of its last record.
pub fn read(file: &[u8], gate: u32) -> Result<Settings, Refusal>
    ensures { Reads last_version file.now gate result }
{
    read_up_to(LAST_VERSION, file, gate)
}

// The same by the reader that knows version 1 alone.
pub fn read_version_1(file: &[u8], gate: u32) -> Result<Settings, Refusal>
    ensures { Reads 1 file.now gate result }
{
    read_up_to(1, file, gate)
}

// ---- writing

// An offset as 16 bits, two's complement.
fn to_bits(offset: i32) -> u16
    requires { valid_offset offset ≡ true }
    ensures { result ≡ bits offset }
{
    (offset as i16).cast_unsigned()
}

fn put_pair(out: &mut [u8], at: usize, n: u16) -> usize
    requires { Fits out.old at (pair n) }
    ensures { Wrote out.old at (pair n) result out.new }
{
    output::put_text(out, at, &n.to_le_bytes())
}

fn put_pairs(out: &mut [u8], at: usize, a: u16, b: u16, c: u16) -> usize
    requires { Fits out.old at (pair a ++ pair b ++ pair c) }
    ensures { Wrote out.old at (pair a ++ pair b ++ pair c) result out.new }
{
    let next = put_pair(out, at, a);
    let last = put_pair(out, next, b);
    put_pair(out, last, c)
}

// What stands before the host.
fn put_front(out: &mut [u8], version: u8, len: u8, year: u16, bits: u16, gate: u16) -> usize
    requires { record_size ≤ length out.old }
    ensures { Wrote out.old 0 (front_text version len year bits gate) result out.new }
{
    let next = output::put(out, 0, version);
    let last = output::put(out, next, len);
    put_pairs(out, last, year, bits, gate)
}

fn put_zeros(out: &mut [u8], at: usize, n: usize) -> usize
    requires { at + n ≤ length out.old }
    ensures { Wrote out.old at (replicate n 0) result out.new }
{
    for i in 0..n {
        out[at + i] = 0;
    }
    at + n
}

// The host, and zeros behind it.
fn put_host(out: &mut [u8], at: usize, host: &[u8]) -> usize
    requires fits { Fits out.old at (host_text host.now) }
    requires host_len_bound { length host.now ≤ host_room }
    ensures { Wrote out.old at (host_text host.now) result out.new }
{
    let next = output::put_text(out, at, host);
    put_zeros(out, next, HOST_ROOM - host.len())
}

// What stands behind the host.
fn put_end(out: &mut [u8], at: usize, variant: u8) -> usize
    requires { Fits out.old at (end_text variant) }
    ensures { Wrote out.old at (end_text variant) result out.new }
{
    let next = output::put(out, at, variant);
    put_zeros(out, next, 3)
}

fn put_record(
    out: &mut [u8],
    version: u32,
    gate: u32,
    year: u32,
    offset: i32,
    variant: u32,
    host: &[u8],
)
    requires version_value { is_version last_version version ≡ true }
    requires host_value { in_range (meant version gate year offset variant host.now) ≡ true }
    requires record_size_in_bounds { record_size ≤ length out.old }
    ensures { out.new ≡ filled (record_of (meant version gate year offset variant host.now)) out.old }
{
    let len = host.len() as u8;
    let next = put_front(
        out,
        version as u8,
        len,
        year as u16,
        to_bits(offset),
        gate as u16,
    );
    let last = put_host(out, next, host);
    put_end(out, last, variant as u8);
}

// The settings as a record at the front of the output.
pub fn write(
    version: u32,
    gate: u32,
    year: u32,
    offset: i32,
    variant: u32,
    host: &[u8],
    output: &mut [u8],
) -> Result<usize, Refusal>
    ensures { Writes (meant version gate year offset variant host.now) output.old result output.new }
{
    if !is_version(LAST_VERSION, version) {
        return Err(Refusal::UnknownVersion);
    }
    if !is_in_range(version, gate, year, offset, variant, host) {
        return Err(Refusal::BadField);
    }
    if output.len() < RECORD_SIZE {
        return Err(Refusal::OutputShort);
    }
    put_record(output, version, gate, year, offset, variant, host);
    Ok(RECORD_SIZE)
}

// ---- for C

fn settings_answer_of(r: Result<Settings, Refusal>) -> SettingsAnswer
    ensures { result ≡ settings_answer_of r }
{
    match r {
        Ok(s) => SettingsAnswer {
            number: 0,
            version: s.version,
            gate: s.gate,
            year: s.year,
            offset: s.offset,
            variant: s.variant,
            host_start: s.host.start,
            host_len: s.host.len,
        },
        Err(f) => SettingsAnswer {
            number: u32::from(f),
            version: 0,
            gate: 0,
            year: 0,
            offset: 0,
            variant: 0,
            host_start: 0,
            host_len: 0,
        },
    }
}

// The settings of a gate.
pub fn khamdoriem_settings_read(file: &[u8], gate: u32) -> SettingsAnswer
    ensures { ReadsNumbers last_version file.now gate result }
{
    settings_answer_of(read(file, gate))
}

// The same by the reader of version 1.
pub fn khamdoriem_settings_read_1(file: &[u8], gate: u32) -> SettingsAnswer
    ensures { ReadsNumbers 1 file.now gate result }
{
    settings_answer_of(read_version_1(file, gate))
}

// A record of settings: number and length.
pub fn khamdoriem_settings_write(
    version: u32,
    gate: u32,
    year: u32,
    offset: i32,
    variant: u32,
    host: &[u8],
    output: &mut [u8],
) -> OutputAnswer
    ensures { WritesNumbers (meant version gate year offset variant host.now) output.old result output.new }
{
    record::output_answer_of(write(version, gate, year, offset, variant, host, output))
}
