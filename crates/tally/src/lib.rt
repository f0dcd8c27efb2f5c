// The tally: how many records of each facility and each severity came in. 25 rows, facilities 0 to 23 and none, of 9 columns, severities 0 to 7 and none.
#![tactic(auto)]

ghost use Rattle.std.specs.Prelude.{◌≡◌, ◌<◌, length, slice_index, MatchResult};
ghost use Rattle.record.specs.Refusals.{refusal_number};
ghost use Rattle.tally.specs.Tally.{no_facility, column_count, place_of, Adds, sum_of, column_sum, cell_read, row_read, column_read};
ghost use Rattle.tally.specs.Numbers.{place_in, demanded, cell_answer_of, sum_answer_of, AddsNumbers, cell_read_in, row_read_in, column_read_in, AddsIn};

use record::Refusal;

// The answers as a C caller gets them: a number (0: done) and the value, which is 0 where the call is refused.
#[repr(C)]
#[derive(Clone, Copy)]
pub struct CellAnswer {
    pub number: u32,
    pub count: u32,
}

#[repr(C)]
#[derive(Clone, Copy)]
pub struct SumAnswer {
    pub number: u32,
    pub sum: u64,
}

// The row and the column of none, which are the last.
pub const NO_FACILITY: usize = 24;

pub const NO_SEVERITY: usize = 8;

// ---- places

// The place of number `n`, where the last place is `none`; the one behind it where there is none.
fn place(none: usize, n: usize) -> usize
    requires { none < 255 }
    ensures { result ≡ place_of none (Some n) }
{
    if n < none { n } else { none + 1 }
}

fn place_of(none: usize, level: Option<u8>) -> usize
    requires { none < 255 }
    ensures { result ≡ place_of none level }
{
    level.map_or(none, |n| place(none, n as usize))
}

// The same of a mark and a number.
fn place_in(none: usize, mark: u32, n: u32) -> usize
    requires { none < 255 }
    ensures { result ≡ place_in none mark n }
{
    match (mark, n) {
        (0, 0) => none,
        (1, n) => place(none, n as usize),
        _ => none + 1,
    }
}

// ---- over rows, of which there may be too few

// Whether there is a place, and then whether the rows are all there.
fn demand(there: bool, rows: &[[u32; 9]]) -> Result<(), Refusal>
    ensures { result ≡ demanded there rows.now }
{
    if !there {
        Err(Refusal::Unsuitable)
    } else if rows.len() <= NO_FACILITY {
        Err(Refusal::OutputShort)
    } else {
        Ok(())
    }
}

fn add_at(rows: &mut [[u32; 9]], i: usize, j: usize) -> Result<(), Refusal>
    ensures { AddsIn rows.old i j result rows.new }
{
    demand((i <= NO_FACILITY) & (j <= NO_SEVERITY), rows)?;
    rows[i][j] = rows[i][j].checked_add(1).ok_or(Refusal::CellFull)?;
    Ok(())
}

fn cell_at(rows: &[[u32; 9]], i: usize, j: usize) -> Result<u32, Refusal>
    ensures { result ≡ cell_read_in rows.now i j }
{
    demand((i <= NO_FACILITY) & (j <= NO_SEVERITY), rows)?;
    Ok(rows[i][j])
}

fn row_sum(row: &[u32; 9]) -> u64
    ensures { result ≡ sum_of column_count (λ j. slice_index row.now j) }
{
    let mut sum = 0;
    for n in row {
        sum += u64::from(*n);
    }
    sum
}

fn column_sum(rows: &[[u32; 9]], j: usize) -> u64
    requires no_facility_in_bounds { no_facility < length rows.now }
    requires j_lt_column_count { j < column_count }
    ensures { result ≡ column_sum rows.now j }
{
    let mut sum = 0;
    for row in &rows[..=NO_FACILITY] {
        sum += u64::from(row[j]);
    }
    sum
}

fn row_at(rows: &[[u32; 9]], i: usize) -> Result<u64, Refusal>
    ensures { result ≡ row_read_in rows.now i }
{
    demand(i <= NO_FACILITY, rows)?;
    Ok(row_sum(&rows[i]))
}

fn column_at(rows: &[[u32; 9]], j: usize) -> Result<u64, Refusal>
    ensures { result ≡ column_read_in rows.now j }
{
    demand(j <= NO_SEVERITY, rows)?;
    Ok(column_sum(rows, j))
}

// ---- the services

// One record more of a facility and a severity, as a record has them.
pub fn add(
    tally: &mut [[u32; 9]; 25],
    facility: Option<u8>,
    severity: Option<u8>,
) -> Result<(), Refusal>
    ensures { Adds tally.old facility severity result tally.new }
{
    let i = place_of(NO_FACILITY, facility);
    let j = place_of(NO_SEVERITY, severity);
    add_at(tally, i, j)
}

// What a cell holds.
pub fn cell(tally: &[[u32; 9]; 25], row: usize, column: usize) -> Result<u32, Refusal>
    ensures { result ≡ cell_read tally.now row column }
{
    cell_at(tally, row, column)
}

// The sum of a row's cells.
pub fn row(tally: &[[u32; 9]; 25], row: usize) -> Result<u64, Refusal>
    ensures { result ≡ row_read tally.now row }
{
    row_at(tally, row)
}

// The sum of a column's cells.
pub fn column(tally: &[[u32; 9]; 25], column: usize) -> Result<u64, Refusal>
    ensures { result ≡ column_read tally.now column }
{
    column_at(tally, column)
}

// ---- for C: include/khamdoriem.h declares these functions, docs/INTERFACE.md says what they answer

// The number of an answer, and its value, which is `none` where the call is refused.
fn numbers<T: Copy>(r: Result<T, Refusal>, none: T) -> (u32, T)
    ensures { MatchResult r (λ x. result ≡ (0, x)) (λ f. result ≡ (refusal_number f, none)) }
{
    match r {
        Ok(x) => (0, x),
        Err(f) => (u32::from(f), none),
    }
}

impl From<Result<u32, Refusal>> for CellAnswer {
    ghost from_gives = { λ r a. a ≡ cell_answer_of r };

    fn from(r: Result<u32, Refusal>) -> CellAnswer {
        let (number, count) = numbers(r, 0);
        CellAnswer { number, count }
    }
}

impl From<Result<u64, Refusal>> for SumAnswer {
    ghost from_gives = { λ r a. a ≡ sum_answer_of r };

    fn from(r: Result<u64, Refusal>) -> SumAnswer {
        let (number, sum) = numbers(r, 0);
        SumAnswer { number, sum }
    }
}

// One record more of a facility and a severity, in a tally of 25 rows: a mark of 0 and the number 0 are none, a mark of 1 is the number behind it.
pub fn khamdoriem_tally_add(
    rows: &mut [[u32; 9]],
    facility_mark: u32,
    facility: u32,
    severity_mark: u32,
    severity: u32,
) -> u32
    ensures { AddsNumbers rows.old facility_mark facility severity_mark severity result rows.new }
{
    let i = place_in(NO_FACILITY, facility_mark, facility);
    let j = place_in(NO_SEVERITY, severity_mark, severity);
    numbers(add_at(rows, i, j), ()).0
}

// What a cell of a tally holds.
pub fn khamdoriem_tally_cell(rows: &[[u32; 9]], row: u32, column: u32) -> CellAnswer
    ensures { result ≡ cell_answer_of (cell_read_in rows.now row column) }
{
    CellAnswer::from(cell_at(rows, row as usize, column as usize))
}

// The sum of a row of a tally.
pub fn khamdoriem_tally_row(rows: &[[u32; 9]], row: u32) -> SumAnswer
    ensures { result ≡ sum_answer_of (row_read_in rows.now row) }
{
    SumAnswer::from(row_at(rows, row as usize))
}

// The sum of a column of a tally.
pub fn khamdoriem_tally_column(rows: &[[u32; 9]], column: u32) -> SumAnswer
    ensures { result ≡ sum_answer_of (column_read_in rows.now column) }
{
    SumAnswer::from(column_at(rows, column as usize))
}
