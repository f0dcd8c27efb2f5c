// One case: a call with what its line of the list says, and its answer against what the line says that it must be.
use crate::fields::{Differs, Fields, low_half, up_to};
use case_calls::{Left, looking, printing, reading};

// What a reader left: whether the whole line is the message, the record's words, and the rows of both tables.
fn expect_left(fields: &mut Fields, left: &Left<{ layout::RECORD_SIZE }>) -> Result<(), Differs> {
    fields.expect(u64::from(left.whole))?;
    for i in 0..layout::WORD_COUNT {
        fields.expect(left.word(i))?;
    }
    for row in left.elements() {
        expect_row(fields, row)?;
    }
    for p in left.params() {
        expect_row(
            fields,
            &[
                p.element,
                p.name_start,
                p.name_len,
                p.value_start,
                p.value_len,
            ],
        )?;
    }
    Ok(())
}

fn expect_row(fields: &mut Fields, row: &[usize]) -> Result<(), Differs> {
    for n in row {
        fields.expect(*n as u64)?;
    }
    Ok(())
}

// `R`: variant, year, offset, the tables' lengths, the line; then the number and, where it is 0, whether the whole line is the message, words and
// rows.
pub fn reading_case(text: &[u8]) -> Result<(), Differs> {
    let mut line = [0u8; 8704];
    let mut fields = Fields::of(text);
    let s = fields.settings();
    let e = up_to(fields.number().unwrap_or(0), 64);
    let p = up_to(fields.number().unwrap_or(0), 256);
    let len = fields.bytes(&mut line)?;
    match reading(&line[..len], s, e, p) {
        Ok(left) => {
            fields.expect(0)?;
            expect_left(&mut fields, &left)?;
        }
        Err(number) => fields.expect(u64::from(number))?,
    }
    fields.expect_end()
}

// The number of the answer, its text, and nothing more.
fn expect_output(mut fields: Fields, answer: Result<&[u8], u32>) -> Result<(), Differs> {
    let (number, text) = match answer {
        Ok(text) => (0, text),
        Err(number) => (number, &[][..]),
    };
    fields.expect(u64::from(number))?;
    let mut wanted = [0u8; 16384];
    let len = fields.bytes(&mut wanted)?;
    if &wanted[..len] != text {
        return Err(Differs);
    }
    fields.expect_end()
}

// `P`: the line, variant, year, offset, how much of the line is left for printing, the output's length; then the number and the bytes.
pub fn printing_case(text: &[u8]) -> Result<(), Differs> {
    let mut line = [0u8; 8704];
    let mut out = [0u8; 16384];
    let mut fields = Fields::of(text);
    let len = fields.bytes(&mut line)?;
    let s = fields.settings();
    let left = up_to(fields.number().unwrap_or(0), len);
    let room = up_to(fields.number()?, 16384);
    expect_output(fields, printing(&line[..len], s, left, &mut out[..room]))
}

// `L`: the line, variant, year, offset, id, name, kind, the output's length; then the number and the bytes.
pub fn looking_case(text: &[u8]) -> Result<(), Differs> {
    let mut line = [0u8; 8704];
    let mut id = [0u8; 512];
    let mut name = [0u8; 512];
    let mut out = [0u8; 8704];
    let mut fields = Fields::of(text);
    let len = fields.bytes(&mut line)?;
    let s = fields.settings();
    let id_len = fields.bytes(&mut id)?;
    let name_len = fields.bytes(&mut name)?;
    let kind = low_half(fields.number().unwrap_or(0));
    let room = up_to(fields.number()?, 8704);
    let answer = looking(
        &line[..len],
        s,
        &id[..id_len],
        &name[..name_len],
        kind,
        &mut out[..room],
    );
    expect_output(fields, answer)
}
