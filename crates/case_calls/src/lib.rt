// The calls of a case over the C boundary, each over tables of its own.
#![tactic(auto)]

ghost use Rattle.std.specs.Prelude.{◌≡◌, min, take};
ghost use Rattle.layout.specs.Layout.{elements_word, params_word};
ghost use Rattle.case_calls.specs.Words.{word_in};

use layout::{RECORD_SIZE, STRICT_SIZE};
use record::{OutputAnswer, Param, ReadAnswer};

// Variant, year and offset.
#[derive(Clone, Copy)]
pub struct Settings {
    pub variant: u32,
    pub year: u32,
    pub offset: i32,
}

// What a reader left: whether the whole line is the message, the bytes of the record, and both tables.
#[derive(Clone, Copy)]
pub struct Left<const SIZE: usize> {
    pub whole: u32,
    pub memory: [u8; SIZE],
    elements: [[usize; 2]; 64],
    params: [Param; 256],
}

impl<const SIZE: usize> Left<SIZE> {
    fn new() -> Left<SIZE> {
        Left {
            whole: 0,
            memory: [0; SIZE],
            elements: [[0; 2]; 64],
            params: [record::blank(); 256],
        }
    }

    // What is left, or the number of the refusal.
    fn told(self, a: ReadAnswer) -> Result<Left<SIZE>, u32> {
        if a.number == 0 {
            Ok(Left {
                whole: a.whole,
                ..self
            })
        } else {
            Err(a.number)
        }
    }

    // Word `i` of the record's bytes; 0 past the end.
    #[tactic(auto, using(crate::proofs::Words::eight_read), unfolding(layout::specs::Incoming::word_at))]
    pub fn word(&self, i: usize) -> u64
        ensures { result ≡ word_in self.now.memory i }
    {
        match self.memory.chunks_exact(8).nth(i) {
            Some(&[a, b, c, d, e, f, g, h]) => u64::from_le_bytes([a, b, c, d, e, f, g, h]),
            _ => 0,
        }
    }

    // The elements that were read.
    pub fn elements(&self) -> &[[usize; 2]]
        ensures { result.now ≡ take (min (word_in self.now.memory elements_word) 64) self.now.elements }
    {
        let count = self.word(layout::ELEMENTS_WORD) as usize;
        &self.elements[..count.min(64)]
    }

    // The parameters that were read.
    pub fn params(&self) -> &[Param]
        ensures { result.now ≡ take (min (word_in self.now.memory params_word) 256) self.now.params }
    {
        let count = self.word(layout::PARAMS_WORD) as usize;
        &self.params[..count.min(256)]
    }
}

// A loose reading into tables of `e` and `p` entries, at most 64 and 256.
pub fn reading(line: &[u8], s: Settings, e: usize, p: usize) -> Result<Left<RECORD_SIZE>, u32> {
    let mut left = Left::<RECORD_SIZE>::new();
    let told = loose_call::khamdoriem_read_loose(
        line,
        s.variant,
        s.year,
        s.offset,
        &mut left.elements[..e.min(64)],
        &mut left.params[..p.min(256)],
        &mut left.memory,
    );
    left.told(told)
}

// A strict reading.
pub fn strict_reading(line: &[u8]) -> Result<Left<STRICT_SIZE>, u32> {
    let mut left = Left::<STRICT_SIZE>::new();
    let told = strict_call::khamdoriem_read_strict(
        line,
        &mut left.elements,
        &mut left.params,
        &mut left.memory,
    );
    left.told(told)
}

// The text that was put in the output, or the number of the refusal.
fn text_of(a: OutputAnswer, out: &[u8]) -> Result<&[u8], u32> {
    if a.number == 0 {
        Ok(&out[..a.len.min(out.len())])
    } else {
        Err(a.number)
    }
}

// A reading, and its record printed over the line's first `len` bytes.
pub fn printing<'a>(
    line: &[u8],
    s: Settings,
    len: usize,
    out: &'a mut [u8],
) -> Result<&'a [u8], u32> {
    let left = reading(line, s, 64, 256)?;
    let a = text_calls::khamdoriem_print(
        &line[..len.min(line.len())],
        &left.memory,
        &left.elements,
        &left.params,
        out,
    );
    text_of(a, out)
}

// A reading, and a value of it looked up.
pub fn looking<'a>(
    line: &[u8],
    s: Settings,
    id: &[u8],
    name: &[u8],
    kind: u32,
    out: &'a mut [u8],
) -> Result<&'a [u8], u32> {
    let left = reading(line, s, 64, 256)?;
    let a = text_calls::khamdoriem_lookup(
        line,
        &left.memory,
        &left.elements,
        &left.params,
        id,
        name,
        kind,
        out,
    );
    text_of(a, out)
}
