// message.rs, the timestamp: written into the output in place.
#![tactic(auto)]

ghost use Rattle.std.specs.Prelude.{◌≡◌, ◌∷◌, true, nat_abs, length};
ghost use Rattle.output.specs.Fits.{Fits, Sized};
ghost use Rattle.output.specs.Numerals.{fixed};
ghost use Rattle.output.specs.Output.{Wrote};
ghost use Rattle.suits.specs.Suits.{stamp_suits};
ghost use Rattle.message_stamp.specs.Stamps.{date_text, time_text, clock_text, fraction_text, sign_of, offset_text, shown_text, stamp_text};

use calendar::DateTime;
use output::{put, put_fixed};
use record::Timestamp;

// A mark and the last `k` digits of `n`.
pub fn put_marked(out: &mut [u8], at: usize, mark: u8, k: usize, n: u32) -> usize
    requires { Fits out.old at (mark ∷ fixed k n) }
    ensures { Wrote out.old at (mark ∷ fixed k n) result out.new }
{
    let next = put(out, at, mark);
    put_fixed(out, next, k, n)
}

fn put_date(out: &mut [u8], at: usize, t: DateTime) -> usize
    requires { Fits out.old at (date_text t) }
    ensures { Wrote out.old at (date_text t) result out.new }
{
    let a = put_fixed(out, at, 4, t.year);
    let b = put_marked(out, a, b'-', 2, t.month);
    put_marked(out, b, b'-', 2, t.day)
}

fn put_time(out: &mut [u8], at: usize, t: DateTime) -> usize
    requires { Fits out.old at (time_text t) }
    ensures { Wrote out.old at (time_text t) result out.new }
{
    let a = put_marked(out, at, b'T', 2, t.hour);
    let b = put_marked(out, a, b':', 2, t.minute);
    put_marked(out, b, b':', 2, t.second)
}

fn put_clock(out: &mut [u8], at: usize, t: DateTime) -> usize
    requires { Fits out.old at (clock_text t) }
    ensures { Wrote out.old at (clock_text t) result out.new }
{
    let a = put_date(out, at, t);
    put_time(out, a, t)
}

fn put_fraction(out: &mut [u8], at: usize, digits: u32, nanos: u32) -> usize
    requires { Fits out.old at (fraction_text digits nanos) }
    ensures { Wrote out.old at (fraction_text digits nanos) result out.new }
{
    if digits == 0 {
        return at;
    }
    let k = digits as usize;
    put_marked(out, at, b'.', k, nanos / digits::unit(k))
}

// How many bytes the fraction takes.
fn fraction_len(t: Timestamp) -> usize
    ensures { result ≡ length (fraction_text t.digits t.nanos) }
{
    if t.digits == 0 {
        return 0;
    }
    t.digits as usize + 1
}

fn sign_of(t: Timestamp) -> u8
    ensures { result ≡ sign_of t.offset }
{
    let d = base::split(base::widen(t.offset));
    if d.down == 0 {
        return b'+';
    }
    b'-'
}

// The minutes of the offset, without the sign.
fn minutes_of(t: Timestamp) -> u32
    ensures { result ≡ nat_abs t.offset }
{
    let d = base::split(base::widen(t.offset));
    (d.up + d.down) as u32
}

fn put_offset(out: &mut [u8], at: usize, t: Timestamp) -> usize
    requires { Fits out.old at (offset_text t.offset) }
    ensures { Wrote out.old at (offset_text t.offset) result out.new }
{
    let sign = sign_of(t);
    let minutes = minutes_of(t);
    let a = put_marked(out, at, sign, 2, minutes / 60);
    put_marked(out, a, b':', 2, minutes % 60)
}

fn put_shown(out: &mut [u8], at: usize, clock: DateTime, t: Timestamp) -> usize
    requires { Fits out.old at (shown_text t (Some clock)) }
    ensures { Wrote out.old at (shown_text t (Some clock)) result out.new }
{
    let a = put_clock(out, at, clock);
    let b = put_fraction(out, a, t.digits, t.nanos);
    put_offset(out, b, t)
}

// The timestamp, or `-`, into the first bytes of the part of the output that is lent.
pub fn put_stamp(out: &mut [u8], stamp: Option<Timestamp>) -> usize
    requires { Fits out.old 0 (stamp_text stamp) }
    ensures { Wrote out.old 0 (stamp_text stamp) result out.new }
{
    let Some(t) = stamp else {
        return put(out, 0, b'-');
    };
    let Some(clock) = calendar::shown_at(t.seconds, t.offset) else {
        return 0;
    };
    put_shown(out, 0, clock, t)
}

// How many bytes the timestamp takes, known beforehand.
pub fn stamp_len(stamp: Option<Timestamp>) -> usize
    requires { stamp_suits stamp ≡ true }
    ensures { Sized (stamp_text stamp) 35 result }
{
    let Some(t) = stamp else {
        return 1;
    };
    25 + fraction_len(t)
}
