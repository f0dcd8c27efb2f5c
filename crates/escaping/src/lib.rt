// A raw value, measured and written with its escapes: runs of plain bytes are passed over by sixteens and copied whole.
#![tactic(auto)]

ghost use Rattle.std.specs.Prelude.{◌≡◌, ◌∷◌, ◌+◌, ◌-◌, ◌≤◌, length, drop};
ghost use Rattle.base.specs.Runs.{run};
ghost use Rattle.base.specs.Texts.{text_at};
ghost use Rattle.record.specs.Limits.{line_limit};
ghost use Rattle.output.specs.Fits.{Fits};
ghost use Rattle.output.specs.Output.{Wrote};
ghost use Rattle.writes.specs.Written.{escape};
ghost use Rattle.escaping.specs.Plain.{plain, sixteen};

fn is_plain(b: u8) -> bool
    ensures { result ≡ plain b }
{
    !((b == b'"') | (b == b'\\') | (b == b']'))
}

// Whether the sixteen bytes from place `i` on are plain. All are asked, so that the compiler makes one test of them.
fn sixteen_plain(s: &[u8], i: usize) -> bool
    requires { i + 16 ≤ length s.now }
    ensures { result ≡ sixteen plain s.now i }
{
    s[i..i + 16].iter().fold(true, |all, b| all & is_plain(*b))
}

// How far the plain bytes from `from` on reach, by sixteens.
fn plain_front(s: &[u8], from: usize) -> usize
    requires { from ≤ length s.now }
    ensures upper_bound { result ≤ length s.now }
    ensures s_value { from + run plain (drop from s.now) ≡ result + run plain (drop result s.now) }
{
    let n = s.len();
    let mut i = from;
    while 16 <= n - i {
        if !sixteen_plain(s, i) {
            return i;
        }
        i += 16;
    }
    i
}

// Where the run of plain bytes from `from` on ends.
fn plain_end(s: &[u8], from: usize) -> usize
    requires { from ≤ length s.now }
    ensures { result ≡ from + run plain (drop from s.now) }
{
    let i = plain_front(s, from);
    i + s[i..].iter().take_while(|b| is_plain(**b)).count()
}

// The length of a value with its escapes.
pub fn escaped_len(v: &[u8]) -> usize
    requires { length v.now ≤ line_limit }
    ensures { result ≡ length (escape v.now) }
{
    let mut n = v.len();
    let mut i = plain_end(v, 0);
    while i < v.len() {
        n += 1;
        i = plain_end(v, i + 1);
    }
    n
}

// A backslash and the bytes from `i` to `j`.
fn put_marked(out: &mut [u8], at: usize, v: &[u8], i: usize, j: usize) -> usize
    requires fits { Fits out.old at (92 ∷ text_at v.now i (j - i)) }
    requires i_le_j { i ≤ j }
    requires j_in_bounds { j ≤ length v.now }
    ensures { Wrote out.old at (92 ∷ text_at v.now i (j - i)) result out.new }
{
    let next = output::put(out, at, b'\\');
    output::put_text(out, next, &v[i..j])
}

// A value with its escapes.
pub fn put_escaped(out: &mut [u8], at: usize, v: &[u8]) -> usize
    requires { Fits out.old at (escape v.now) }
    ensures { Wrote out.old at (escape v.now) result out.new }
{
    let mut i = plain_end(v, 0);
    let mut to = output::put_text(out, at, &v[0..i]);
    while i < v.len() {
        let j = plain_end(v, i + 1);
        to = put_marked(out, to, v, i, j);
        i = j;
    }
    to
}
