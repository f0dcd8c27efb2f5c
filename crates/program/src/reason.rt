// Why reading or writing failed, in words.
use std::io::Write;
use std::{io, str};

// What the error prints, less its number; the text is in the buffer.
pub(crate) fn reason(why: io::Error, text: &mut [u8; 256]) -> &str {
    let mut rest = &mut text[..];
    let _ = write!(rest, "{why}");
    let Ok(all) = str::from_utf8(text) else {
        return "";
    };
    front(front(all, "\0"), " (os error ")
}

// The text before the first `end`, or all of it.
fn front<'a>(text: &'a str, end: &str) -> &'a str {
    text.split_once(end).map_or(text, |(before, _)| before)
}
