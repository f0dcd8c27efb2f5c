// What is handed to the writer of strict lines: numbers, and places in a lent text.

// A text that may be absent: `len` bytes of the lent text from `start`; absent where `present` is 0.
#[repr(C)]
#[derive(Clone, Copy)]
pub struct Part {
    pub present: usize,
    pub start: usize,
    pub len: usize,
}

// The fields but for the entries of the tables, of which the first `element_count` and the first `param_count` count. Where `stamped` is 0 there is no
// timestamp.
#[repr(C)]
#[derive(Clone, Copy)]
pub struct Handed {
    pub priority: u32,
    pub version: u32,
    pub seconds: i64,
    pub stamped: u32,
    pub nanos: u32,
    pub digits: u32,
    pub offset: i32,
    pub host: Part,
    pub app: Part,
    pub procid: Part,
    pub msgid: Part,
    pub message: Part,
    pub element_count: usize,
    pub param_count: usize,
}
