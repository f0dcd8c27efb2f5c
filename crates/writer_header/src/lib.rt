// The front of a strict line, `<p>` to the message id and its space, and the message: the length and the text.
#![tactic(auto)]

ghost use Rattle.std.specs.Prelude.{◌≡◌, true, ◌+◌, ◌≤◌, length};
ghost use Rattle.output.specs.Fits.{Fits, Sized};
ghost use Rattle.output.specs.Numerals.{numeral};
ghost use Rattle.output.specs.Output.{Wrote};
ghost use Rattle.suits.specs.Suits.{record_suits};
ghost use Rattle.grammar.specs.Line.{message_text};
ghost use Rattle.message_stamp.specs.Stamps.{stamp_text};
ghost use Rattle.writes.specs.Fits.{text_fits};
ghost use Rattle.writes.specs.Writes.{part_in, stamp_in, record_in};
ghost use Rattle.fitting.specs.Heads.{head_fits};
ghost use Rattle.writer_header.specs.Fronts.{part_text, field_text, pri_text, start_text, stamped_text, pair_text, names_text, front_text};

use output::{put, put_number};
use record::Timestamp;
use writes::{Handed, Part};

// How many bytes a text takes that fits, or `-`.
fn part_len(text: &[u8], p: Part, most: usize) -> usize
    requires len_in_bounds { p.start + p.len ≤ length text.now }
    requires p_value { text_fits most (part_in text.now p) ≡ true }
    requires le_most { 1 ≤ most }
    ensures { Sized (part_text text.now p) most result }
{
    if p.present == 0 {
        return 1;
    }
    fitting::text_at(text, p.start, p.len).len()
}

fn names_len(text: &[u8], h: Handed) -> usize
    requires h_value { record_suits text.now (record_in h) ≡ true }
    requires h_value_2 { head_fits text.now h ≡ true }
    ensures { Sized (names_text text.now h) 467 result }
{
    let host = h.host;
    let app = h.app;
    let procid = h.procid;
    let msgid = h.msgid;
    part_len(text, host, 255)
        + part_len(text, app, 48)
        + part_len(text, procid, 128)
        + part_len(text, msgid, 32)
        + 4
}

fn number_len(n: u32) -> usize
    ensures { Sized (numeral n) 10 result }
{
    output::digits_of(n)
}

fn stamp_len(text: &[u8], h: Handed) -> usize
    requires { record_suits text.now (record_in h) ≡ true }
    ensures { Sized (stamp_text (stamp_in h)) 35 result }
{
    let timestamp = fitting::stamp_in(h);
    message_stamp::stamp_len(timestamp)
}

// How many bytes the front takes.
pub fn front_len(text: &[u8], h: Handed) -> usize
    requires h_value { record_suits text.now (record_in h) ≡ true }
    requires h_value_2 { head_fits text.now h ≡ true }
    ensures { Sized (front_text text.now h) 526 result }
{
    number_len(h.priority) + number_len(h.version) + stamp_len(text, h) + names_len(text, h) + 4
}

// `<p>`
fn put_pri(out: &mut [u8], h: Handed) -> usize
    requires { Fits out.old 0 (pri_text h) }
    ensures { Wrote out.old 0 (pri_text h) result out.new }
{
    let a = put(out, 0, b'<');
    let b = put_number(out, a, h.priority);
    put(out, b, b'>')
}

// and the version and a space
fn put_start(out: &mut [u8], h: Handed) -> usize
    requires { Fits out.old 0 (start_text h) }
    ensures { Wrote out.old 0 (start_text h) result out.new }
{
    let a = put_pri(out, h);
    let b = put_number(out, a, h.version);
    put(out, b, b' ')
}

// The timestamp's printer gets the part of the output after the version's space.
fn put_stamp_at(out: &mut [u8], at: usize, timestamp: Option<Timestamp>) -> usize
    requires { Fits out.old at (stamp_text timestamp) }
    ensures { Wrote out.old at (stamp_text timestamp) result out.new }
{
    at + message_stamp::put_stamp(&mut out[at..], timestamp)
}

fn put_stamp(out: &mut [u8], at: usize, h: Handed) -> usize
    requires { Fits out.old at (stamp_text (stamp_in h)) }
    ensures { Wrote out.old at (stamp_text (stamp_in h)) result out.new }
{
    let timestamp = fitting::stamp_in(h);
    put_stamp_at(out, at, timestamp)
}

fn put_stamped(out: &mut [u8], h: Handed) -> usize
    requires { Fits out.old 0 (stamped_text h) }
    ensures { Wrote out.old 0 (stamped_text h) result out.new }
{
    let a = put_start(out, h);
    let b = put_stamp(out, a, h);
    put(out, b, b' ')
}

// A text, or `-` where it is absent.
fn put_part(out: &mut [u8], at: usize, text: &[u8], p: Part) -> usize
    requires fits { Fits out.old at (part_text text.now p) }
    requires len_in_bounds { p.start + p.len ≤ length text.now }
    ensures { Wrote out.old at (part_text text.now p) result out.new }
{
    if p.present == 0 {
        return put(out, at, b'-');
    }
    output::put_text(out, at, fitting::text_at(text, p.start, p.len))
}

fn put_field(out: &mut [u8], at: usize, text: &[u8], p: Part) -> usize
    requires fits { Fits out.old at (field_text text.now p) }
    requires len_in_bounds { p.start + p.len ≤ length text.now }
    ensures { Wrote out.old at (field_text text.now p) result out.new }
{
    let a = put_part(out, at, text, p);
    put(out, a, b' ')
}

fn put_pair(out: &mut [u8], at: usize, text: &[u8], p: Part, q: Part) -> usize
    requires fits { Fits out.old at (pair_text text.now p q) }
    requires len_in_bounds { p.start + p.len ≤ length text.now }
    requires len_in_bounds_2 { q.start + q.len ≤ length text.now }
    ensures { Wrote out.old at (pair_text text.now p q) result out.new }
{
    let a = put_field(out, at, text, p);
    put_field(out, a, text, q)
}

// The front.
pub fn put_front(out: &mut [u8], text: &[u8], h: Handed) -> usize
    requires fits { Fits out.old 0 (front_text text.now h) }
    requires h_value { record_suits text.now (record_in h) ≡ true }
    ensures { Wrote out.old 0 (front_text text.now h) result out.new }
{
    let host = h.host;
    let app = h.app;
    let procid = h.procid;
    let msgid = h.msgid;
    let a = put_stamped(out, h);
    let b = put_pair(out, a, text, host, app);
    put_pair(out, b, text, procid, msgid)
}

// A space and the message, where there is one.
pub fn put_message(out: &mut [u8], at: usize, text: &[u8], p: Part) -> usize
    requires fits { Fits out.old at (message_text (part_in text.now p)) }
    requires len_in_bounds { p.start + p.len ≤ length text.now }
    ensures { Wrote out.old at (message_text (part_in text.now p)) result out.new }
{
    if p.present == 0 {
        return at;
    }
    let a = put(out, at, b' ');
    output::put_text(out, a, fitting::text_at(text, p.start, p.len))
}
