// The archive for a host: each function that C calls, under its own name. It calls the function of that name in the library, and promises the same.
#![tactic(auto)]

ghost use Rattle.std.specs.Prelude.{◌≡◌};
ghost use Rattle.exports.specs.Exports.{interface_number, LeavesLoose, LeavesStrict, ServesPrint, ServesLookup};
ghost use Rattle.record.specs.Params.{rows};
ghost use Rattle.stream.specs.Machine.{start_of};
ghost use Rattle.stream.specs.Numbers.{start_answer_of, Splits, state_of, finish_answer_of};
ghost use Rattle.tally.specs.Numbers.{AddsNumbers, cell_answer_of, cell_read_in, sum_answer_of, row_read_in, column_read_in};
ghost use Rattle.settings.specs.Record.{last_version, meant};
ghost use Rattle.settings.specs.Numbers.{ReadsNumbers, WritesNumbers};
ghost use Rattle.site.specs.Numbers.{LeavesSite};
ghost use Rattle.checker.specs.Memory.{ChecksBytes};
ghost use Rattle.writer.specs.Serves.{ServesWrite};
ghost use Rattle.compare.specs.Numbers.{Answers};

use compare::CompareAnswer;
use record::{OutputAnswer, Param, ReadAnswer};
use settings::SettingsAnswer;
use site::SiteAnswer;
use stream::{FeedAnswer, FinishAnswer, StartAnswer, StreamState};
use tally::{CellAnswer, SumAnswer};
use writes::Handed;

// The number of the interface, which a host compares with that of its header.
#[unsafe(no_mangle)]
pub extern "C" fn khamdoriem_interface() -> u32
    ensures { result ≡ interface_number }
{
    exports::khamdoriem_interface()
}

// Loose reading: where the number is 0, the record's 216 bytes in `memory`.
#[unsafe(no_mangle)]
pub extern "C" fn khamdoriem_read_loose(
    line: &[u8],
    variant: u32,
    year: u32,
    offset: i32,
    elements: &mut [[usize; 2]],
    params: &mut [Param],
    memory: &mut [u8],
) -> ReadAnswer
    ensures { LeavesLoose line.now variant year offset elements.old (rows params.old) memory.old result elements.new (rows params.new) memory.new }
{
    loose_call::khamdoriem_read_loose(line, variant, year, offset, elements, params, memory)
}

// Strict reading: where the number is 0, the record's 248 bytes in `memory`.
#[unsafe(no_mangle)]
pub extern "C" fn khamdoriem_read_strict(
    line: &[u8],
    elements: &mut [[usize; 2]],
    params: &mut [Param],
    memory: &mut [u8],
) -> ReadAnswer
    ensures { LeavesStrict line.now elements.old (rows params.old) memory.old result elements.new (rows params.new) memory.new }
{
    strict_call::khamdoriem_read_strict(line, elements, params, memory)
}

// Printing of the record that the 216 bytes hold: number and length.
#[unsafe(no_mangle)]
pub extern "C" fn khamdoriem_print(
    line: &[u8],
    memory: &[u8],
    elements: &[[usize; 2]],
    params: &[Param],
    output: &mut [u8],
) -> OutputAnswer
    ensures { ServesPrint line.now memory.now elements.now (rows params.now) output.old result output.new }
{
    text_calls::khamdoriem_print(line, memory, elements, params, output)
}

// Lookup in what a reader left: number and length.
#[unsafe(no_mangle)]
pub extern "C" fn khamdoriem_lookup(
    line: &[u8],
    memory: &[u8],
    elements: &[[usize; 2]],
    params: &[Param],
    id: &[u8],
    name: &[u8],
    kind: u32,
    output: &mut [u8],
) -> OutputAnswer
    ensures { ServesLookup line.now memory.now elements.now (rows params.now) id.now name.now kind output.old result output.new }
{
    text_calls::khamdoriem_lookup(line, memory, elements, params, id, name, kind, output)
}

// The state at the start of a stream, or at its restart: kind 0 is counted, 1 lines.
#[unsafe(no_mangle)]
pub extern "C" fn khamdoriem_stream_start(kind: u32) -> StartAnswer
    ensures { result ≡ start_answer_of (start_of kind) }
{
    stream_calls::khamdoriem_stream_start(kind)
}

// Bytes of a stream, up to the end of a frame or to a refusal; what is held of a frame is at the front of `buffer`.
#[unsafe(no_mangle)]
pub extern "C" fn khamdoriem_stream_feed(
    state: StreamState,
    bytes: &[u8],
    buffer: &mut [u8],
) -> FeedAnswer
    ensures { Splits state bytes.now buffer.old result buffer.new }
{
    stream_calls::khamdoriem_stream_feed(state, bytes, buffer)
}

// The end of a stream: the content bytes of an unfinished frame.
#[unsafe(no_mangle)]
pub extern "C" fn khamdoriem_stream_finish(state: StreamState) -> FinishAnswer
    ensures { result ≡ finish_answer_of (state_of state) }
{
    stream_calls::khamdoriem_stream_finish(state)
}

// One record more of a facility and a severity, in a tally of 25 rows: a mark of 0 and the number 0 are none, a mark of 1 is the number behind it.
#[unsafe(no_mangle)]
pub extern "C" fn khamdoriem_tally_add(
    rows: &mut [[u32; 9]],
    facility_mark: u32,
    facility: u32,
    severity_mark: u32,
    severity: u32,
) -> u32
    ensures { AddsNumbers rows.old facility_mark facility severity_mark severity result rows.new }
{
    tally::khamdoriem_tally_add(rows, facility_mark, facility, severity_mark, severity)
}

// What a cell of a tally holds.
#[unsafe(no_mangle)]
pub extern "C" fn khamdoriem_tally_cell(rows: &[[u32; 9]], row: u32, column: u32) -> CellAnswer
    ensures { result ≡ cell_answer_of (cell_read_in rows.now row column) }
{
    tally::khamdoriem_tally_cell(rows, row, column)
}

// The sum of a row of a tally.
#[unsafe(no_mangle)]
pub extern "C" fn khamdoriem_tally_row(rows: &[[u32; 9]], row: u32) -> SumAnswer
    ensures { result ≡ sum_answer_of (row_read_in rows.now row) }
{
    tally::khamdoriem_tally_row(rows, row)
}

// The sum of a column of a tally.
#[unsafe(no_mangle)]
pub extern "C" fn khamdoriem_tally_column(rows: &[[u32; 9]], column: u32) -> SumAnswer
    ensures { result ≡ sum_answer_of (column_read_in rows.now column) }
{
    tally::khamdoriem_tally_column(rows, column)
}

// The settings of a gate.
#[unsafe(no_mangle)]
pub extern "C" fn khamdoriem_settings_read(file: &[u8], gate: u32) -> SettingsAnswer
    ensures { ReadsNumbers last_version file.now gate result }
{
    settings::khamdoriem_settings_read(file, gate)
}

// The same by the reader of version 1.
#[unsafe(no_mangle)]
pub extern "C" fn khamdoriem_settings_read_1(file: &[u8], gate: u32) -> SettingsAnswer
    ensures { ReadsNumbers 1 file.now gate result }
{
    settings::khamdoriem_settings_read_1(file, gate)
}

// A record of settings: number and length.
#[unsafe(no_mangle)]
pub extern "C" fn khamdoriem_settings_write(
    version: u32,
    gate: u32,
    year: u32,
    offset: i32,
    variant: u32,
    host: &[u8],
    output: &mut [u8],
) -> OutputAnswer
    ensures { WritesNumbers (meant version gate year offset variant host.now) output.old result output.new }
{
    settings::khamdoriem_settings_write(version, gate, year, offset, variant, host, output)
}

// Loose reading with settings: where the number is 0, the record's 216 bytes in `memory`.
#[unsafe(no_mangle)]
pub extern "C" fn khamdoriem_read_with_settings(
    file: &[u8],
    gate: u32,
    line: &[u8],
    elements: &mut [[usize; 2]],
    params: &mut [Param],
    memory: &mut [u8],
) -> SiteAnswer
    ensures { LeavesSite file.now gate line.now elements.old (rows params.old) memory.old result elements.new (rows params.new) memory.new }
{
    site::khamdoriem_read_with_settings(file, gate, line, elements, params, memory)
}

// The check of the strict record and the counts that the 248 bytes hold, with both tables: 0 if they are the line's reading, else why not.
#[unsafe(no_mangle)]
pub extern "C" fn khamdoriem_check_claim(
    line: &[u8],
    memory: &[u8],
    elements: &[[usize; 2]],
    params: &[Param],
) -> u32
    ensures { ChecksBytes line.now memory.now elements.now (rows params.now) result }
{
    checker::khamdoriem_check_claim(line, memory, elements, params)
}

// The service as a C caller has it: number and length.
#[unsafe(no_mangle)]
pub extern "C" fn khamdoriem_write_strict<'a>(
    text: &'a [u8],
    handed: Handed,
    elements: &'a [[usize; 2]],
    params: &[Param],
    output: &mut [u8],
) -> OutputAnswer
    ensures { ServesWrite text.now handed elements.now (rows params.now) output.old result output.new }
{
    writer::khamdoriem_write_strict(text, handed, elements, params, output)
}

// The comparison over the C boundary, in numbers.
#[unsafe(no_mangle)]
pub extern "C" fn khamdoriem_compare(
    line1: &[u8],
    line2: &[u8],
    variant: u32,
    year: u32,
    offset: i32,
    elements1: &mut [[usize; 2]],
    params1: &mut [Param],
    elements2: &mut [[usize; 2]],
    params2: &mut [Param],
) -> CompareAnswer
    ensures { Answers line1.now line2.now variant year offset elements1.old (rows params1.old) elements2.old (rows params2.old) result elements1.new (rows params1.new) elements2.new (rows params2.new) }
{
    compare::khamdoriem_compare(
        line1, line2, variant, year, offset, elements1, params1, elements2, params2,
    )
}
