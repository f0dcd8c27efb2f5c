// Whether the ids that rows name in a text differ: few of them by comparing each with all behind it, more by the strict reader, which refuses a repeated id.
#![tactic(auto)]

ghost use Rattle.std.specs.Prelude.{◌≡◌, true, [], ◌∷◌, ◌++◌, ◌+◌, ◌≤◌, ◌<◌, length, get_or, take, drop};
ghost use Rattle.base.specs.Texts.{is_in, all_different};
ghost use Rattle.record.specs.Limits.{line_limit};
ghost use Rattle.suits.specs.Suits.{elements_suit};
ghost use Rattle.output.specs.Fits.{Fits};
ghost use Rattle.output.specs.Output.{Wrote};
ghost use Rattle.ids.specs.Ids.{id_in, ids_in, ids_fit, Gathers, Tells, Meets};

// The id of element `k`.
#[tactic(auto, using(crate::proofs::Few::id_laws))]
pub fn id_at<'a>(text: &'a [u8], rows: &'a [[usize; 2]], k: usize) -> &'a [u8]
    requires rows_value { elements_suit text.now rows.now ≡ true }
    requires k_in_bounds { k < length rows.now }
    ensures { result.now ≡ id_in text.now (get_or rows.now k []) }
{
    let row = rows[k];
    let start = row[0];
    let end = start + row[1];
    &text[start..end]
}

// Whether an element behind `k` has its id.
#[tactic(auto, using(crate::proofs::Few::behind_laws))]
fn is_behind<'a>(text: &'a [u8], rows: &'a [[usize; 2]], k: usize) -> bool
    requires rows_value { elements_suit text.now rows.now ≡ true }
    requires k_in_bounds { k < length rows.now }
    ensures { result ≡ is_in (id_in text.now (get_or rows.now k [])) (ids_in text.now (drop (k + 1) rows.now)) }
{
    for j in k + 1..rows.len() {
        if base::same_text(id_at(text, rows, k), id_at(text, rows, j)) {
            return true;
        }
    }
    false
}

#[tactic(auto, using(crate::proofs::Few::few_laws))]
fn few_differ<'a>(text: &'a [u8], rows: &'a [[usize; 2]]) -> bool
    requires { elements_suit text.now rows.now ≡ true }
    ensures { result ≡ all_different (ids_in text.now rows.now) }
{
    for k in 0..rows.len() {
        if is_behind(text, rows, k) {
            return false;
        }
    }
    true
}

// `[id]`
fn put_bare(out: &mut [u8], at: usize, id: &[u8]) -> usize
    requires { Fits out.old at ((91 ∷ id.now) ++ (93 ∷ [])) }
    ensures { Wrote out.old at ((91 ∷ id.now) ++ (93 ∷ [])) result out.new }
{
    let a = output::put(out, at, b'[');
    let b = output::put_text(out, a, id);
    output::put(out, b, b']')
}

// How far elements are gathered: the next one, and the end of their text.
#[derive(Clone, Copy)]
struct Block {
    next: usize,
    end: usize,
}

// The elements from `from` on with their ids alone, written from `at` on as many as end within `most` bytes.
fn gather<'a>(
    out: &mut [u8],
    at: usize,
    most: usize,
    text: &'a [u8],
    rows: &'a [[usize; 2]],
    from: usize,
) -> Block
    requires rows_value { elements_suit text.now rows.now ≡ true }
    requires rows_value_2 { ids_fit text.now rows.now ≡ true }
    requires from_in_bounds { from ≤ length rows.now }
    requires at_le_most { at ≤ most }
    requires most_in_bounds { most ≤ length out.old }
    ensures { Gathers text.now rows.now from at most out.old result out.new }
{
    let mut end = at;
    for i in from..rows.len() {
        let id = id_at(text, rows, i);
        if most - end < id.len() + 2 {
            return Block { next: i, end };
        }
        end = put_bare(out, end, id);
    }
    Block {
        next: rows.len(),
        end,
    }
}

// Whether the ids of the elements in the first `end` bytes differ.
fn bare_differ(line: &[u8], end: usize) -> bool
    requires end_in_bounds { end ≤ length line.now }
    requires end_le_line_limit { end ≤ line_limit }
    ensures { Tells (take end line.now) result }
{
    strict_data::count_data(&line[..end]).is_some()
}

// The element behind the block from `a` on, if the block's ids differ from each other and from all behind them. It is half of what a line holds, so that each other
// block joins it in one.
fn meet<'a>(text: &'a [u8], rows: &'a [[usize; 2]], a: usize, line: &mut [u8]) -> Option<usize>
    requires rows_value { elements_suit text.now rows.now ≡ true }
    requires rows_value_2 { ids_fit text.now rows.now ≡ true }
    requires a_in_bounds { a < length rows.now }
    requires line_limit_in_bounds { line_limit ≤ length line.old }
    ensures { Meets text.now rows.now a result }
{
    let first = gather(line, 0, 4096, text, rows, a);
    let mut b = first.next;
    loop {
        let both = gather(line, first.end, 8192, text, rows, b);
        if !bare_differ(line, both.end) {
            return None;
        }
        b = both.next;
        if rows.len() <= b {
            return Some(first.next);
        }
    }
}

#[tactic(auto, using(crate::proofs::Many::many_laws))]
fn many_differ<'a>(text: &'a [u8], rows: &'a [[usize; 2]]) -> bool
    requires rows_value { elements_suit text.now rows.now ≡ true }
    requires rows_value_2 { ids_fit text.now rows.now ≡ true }
    ensures { result ≡ all_different (ids_in text.now rows.now) }
{
    let mut line = [0u8; 8192];
    let mut a = 0;
    while a < rows.len() {
        let Some(next) = meet(text, rows, a, &mut line) else {
            return false;
        };
        a = next;
    }
    true
}

// Whether the ids differ. They are SD-NAMEs. Where they are more than a line holds, the cost grows with the square of the blocks that they fill: with the tables lent to
// be read alone, nothing else tells.
pub fn ids_differ<'a>(text: &'a [u8], rows: &'a [[usize; 2]]) -> bool
    requires rows_value { elements_suit text.now rows.now ≡ true }
    requires rows_value_2 { ids_fit text.now rows.now ≡ true }
    ensures { result ≡ all_different (ids_in text.now rows.now) }
{
    if rows.len() <= 8 {
        few_differ(text, rows)
    } else {
        many_differ(text, rows)
    }
}
