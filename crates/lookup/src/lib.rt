// Lookup: the unescaped value of the first parameter with a given element id and name.
#![tactic(auto)]

ghost use Rattle.std.specs.Prelude.{◌≡◌, true, [], ◌+◌, ◌≤◌, eqb, length, take, MatchOption};
ghost use Rattle.record.specs.Params.{rows};
ghost use Rattle.base.specs.Texts.{text_at, same_text};
ghost use Rattle.output.specs.Fits.{Fits};
ghost use Rattle.output.specs.Output.{Wrote};
ghost use Rattle.suits.specs.Suits.{tables_suit};
ghost use Rattle.lookup.specs.Unescape.{unescaped_from, unescaped};
ghost use Rattle.lookup.specs.Lookup.{Found, found, Looks};
ghost use Rattle.lookup.specs.Steps.{adds, bytes_of, Gives};

use record::{Param, Record, Refusal};

// A text of the line.
fn text_at(line: &[u8], start: usize, len: usize) -> &[u8]
    requires { start + len ≤ length line.now }
    ensures { result.now ≡ text_at line.now start len }
{
    &line[start..start + len]
}

// Whether the place has that text.
fn text_is(line: &[u8], start: usize, len: usize, text: &[u8]) -> bool
    requires { start + len ≤ length line.now }
    ensures { result ≡ same_text (text_at line.now start len) text.now }
{
    base::same_text(text_at(line, start, len), text)
}

// The value, as the line has it, of the first parameter with that id and that name. `same`: element `last` has the id, which is compared once for all its
// parameters.
fn find<'a>(
    line: &'a [u8],
    element_count: usize,
    param_count: usize,
    elements: &[[usize; 2]],
    params: &[Param],
    id: &[u8],
    name: &[u8],
) -> Option<&'a [u8]>
    requires { tables_suit line.now element_count param_count elements.now (rows params.now) ≡ true }
    ensures { MatchOption result (found line.now elements.now id.now name.now (take param_count (rows params.now)) ≡ Found.nothing) (λ v. found line.now elements.now id.now name.now (take param_count (rows params.now)) ≡ Found.value v.now) }
{
    let mut last = element_count;
    let mut same = false;
    for p in &params[..param_count] {
        if p.element != last {
            let row = elements[p.element];
            last = p.element;
            same = text_is(line, row[0], row[1], id);
        }
        if same && text_is(line, p.name_start, p.name_len, name) {
            return Some(text_at(line, p.value_start, p.value_len));
        }
    }
    None
}

// ---- unescaping

// What a byte of a value adds: nothing, one byte, or a backslash and a byte.
#[derive(Clone, Copy)]
enum Added {
    Nothing,
    One(u8),
    Pair(u8),
}

// `taken`: the byte before is a backslash that takes this one. The three bytes by `|`, since a pattern of them takes longer.
fn turn(loose: bool, taken: bool, b: u8) -> Added
    ensures { bytes_of result ≡ adds loose taken b }
{
    match (taken, b) {
        (false, b'\\') => Added::Nothing,
        (false, _) => Added::One(b),
        (true, _) if (b == b'"') | (b == b'\\') | (b == b']') => Added::One(b),
        (true, b'n') if loose => Added::One(b'\n'),
        (true, _) => Added::Pair(b),
    }
}

// What the value's end adds: a lone last backslash stays in the strict kind.
#[tactic(auto, unfolding(crate::specs::Unescape::unescaped_from))]
fn tail(loose: bool, taken: bool) -> Added
    ensures { bytes_of result ≡ unescaped_from loose taken [] }
{
    if taken && !loose {
        Added::One(b'\\')
    } else {
        Added::Nothing
    }
}

fn added_len(added: Added) -> usize
    ensures { result ≡ length (bytes_of added) }
{
    match added {
        Added::Nothing => 0,
        Added::One(_) => 1,
        Added::Pair(_) => 2,
    }
}

fn put_added(out: &mut [u8], at: usize, added: Added) -> usize
    requires { Fits out.old at (bytes_of added) }
    ensures { Wrote out.old at (bytes_of added) result out.new }
{
    match added {
        Added::Nothing => at,
        Added::One(b) => output::put(out, at, b),
        Added::Pair(b) => {
            let next = output::put(out, at, b'\\');
            output::put(out, next, b)
        }
    }
}

// Whether the byte that adds this takes the next: it adds nothing itself.
fn takes_next(added: Added) -> bool
    ensures { result ≡ eqb (length (bytes_of added)) 0 }
{
    matches!(added, Added::Nothing)
}

// The length of the value unescaped.
fn unescaped_len(v: &[u8], loose: bool) -> usize
    ensures { result ≡ length (unescaped loose v.now) }
{
    let mut n = 0;
    let mut taken = false;
    for &b in v {
        let added = turn(loose, taken, b);
        n += added_len(added);
        taken = takes_next(added);
    }
    n + added_len(tail(loose, taken))
}

// The value unescaped, from `at` on.
pub fn put_unescaped(out: &mut [u8], at: usize, v: &[u8], loose: bool) -> usize
    requires { Fits out.old at (unescaped loose v.now) }
    ensures { Wrote out.old at (unescaped loose v.now) result out.new }
{
    let mut next = at;
    let mut taken = false;
    for &b in v {
        let added = turn(loose, taken, b);
        next = put_added(out, next, added);
        taken = takes_next(added);
    }
    put_added(out, next, tail(loose, taken))
}

// Refusal 8, or the value unescaped. That is no longer than the value, so its length is asked for only where the output is shorter.
fn put_value(v: &[u8], loose: bool, out: &mut [u8]) -> Result<usize, Refusal>
    ensures { Gives loose (Found.value v.now) out.old result out.new }
{
    if out.len() < v.len() && out.len() < unescaped_len(v, loose) {
        return Err(Refusal::OutputShort);
    }
    Ok(put_unescaped(out, 0, v, loose))
}

// The service: the unescaped value of the first parameter with that id and that name, into `out`.
pub fn lookup(
    line: &[u8],
    r: Record,
    element_count: usize,
    param_count: usize,
    elements: &[[usize; 2]],
    params: &[Param],
    id: &[u8],
    name: &[u8],
    kind: u32,
    out: &mut [u8],
) -> Result<usize, Refusal>
    ensures { Looks line.now r element_count param_count elements.now (rows params.now) id.now name.now kind out.old result out.new }
{
    if record::LINE_LIMIT < line.len() {
        return Err(Refusal::LineTooLong);
    }
    if 1 < kind {
        return Err(Refusal::BadSetting);
    }
    if !suits::is_suitable(line, r, element_count, param_count, elements, params) {
        return Err(Refusal::Unsuitable);
    }
    let Some(value) = find(line, element_count, param_count, elements, params, id, name) else {
        return Err(Refusal::NotFound);
    };
    put_value(value, kind == 0, out)
}
