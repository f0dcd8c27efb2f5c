// What a program says on standard output.
use program::Process;

// Writes a text.
pub fn say(process: &mut Process, text: &[u8]) {
    program::say(process, text);
}

// Writes a number between two texts.
pub fn say_number(process: &mut Process, before: &[u8], n: u64, after: &[u8]) {
    program::say(process, before);
    program::say_decimal(process, n);
    program::say(process, after);
}
