// Which of a line's ids is the first that occurred before, if any did: by comparing each with all before it where they are few, by a tree of the ids where they
// may be many. The id of element `k` takes `lens[k]` bytes of the line from `starts[k]`.
#![tactic(auto)]

ghost use Rattle.std.specs.Prelude.{◌≡◌, ◌+◌, ◌<◌, length, get_or, MatchOption};
ghost use Rattle.base.specs.Texts.{same_text};
ghost use Rattle.distinct.specs.Distinct.{id_of, FirstRepeat, Rows};
ghost use Rattle.distinct.specs.Tree.{ids_of, Stand, bit_of, head_of, side_of, turn_of, Asking, Sided, Turning, Seeking, Sought, Placing, Asked, Occurs};

// How many slots stand before those of the first element. The slots of element `j` are the three from `HEADS + 3 * j`.
const HEADS: usize = 128;

// Where the ids of a line stand: that of element `k` takes `lens[k]` bytes from `starts[k]`.
#[derive(Clone, Copy)]
struct Places<'a> {
    line: &'a [u8],
    starts: &'a [u16],
    lens: &'a [u8],
}

impl<'a> Places<'a> {
    fn id(self, k: usize) -> &'a [u8]
        requires { Stand self (k + 1) }
        ensures { result.now ≡ ids_of self.entry k }
    {
        let start = usize::from(self.starts[k]);
        let end = start + usize::from(self.lens[k]);
        &self.line[start..end]
    }
}

// The elements of the tree: the depth of each, and the slots of all. A slot holds the number of its element and one more, 0 where it is free.
#[derive(Clone, Copy)]
struct Nodes<'a> {
    depths: &'a [u8],
    kids: &'a [u16],
}

impl Nodes<'_> {
    // The element in a slot.
    fn element(self, slot: usize) -> Option<usize>
        requires { slot < length self.kids.now }
        ensures { MatchOption result (get_or self.entry.kids.now slot 0 ≡ 0) (λ j. get_or self.entry.kids.now slot 0 ≡ j + 1) }
    {
        usize::from(self.kids[slot]).checked_sub(1)
    }
}

// The byte at place `p`, or 0 past the end.
fn byte_of(text: &[u8], p: usize) -> u8
    ensures { result ≡ get_or text.now p 0 }
{
    text.get(p).copied().unwrap_or(0)
}

// The slot where the walk of an id begins: by its first byte.
fn head_of(text: &[u8]) -> usize
    ensures { result ≡ head_of text.now }
{
    usize::from(byte_of(text, 0) % 128)
}

fn bit_of(x: u8, b: usize) -> usize
    requires { b < 8 }
    ensures { result ≡ bit_of x b }
{
    usize::from((x >> b) % 2)
}

// To which of an element's three slots an id goes that meets it. The element's depth names a bit: `d % 8` of byte `d / 8`. An id with another byte there goes by
// its own bit; one with the same byte to the third slot.
fn side_of(own: &[u8], other: &[u8], d: u8) -> usize
    ensures { result ≡ side_of own.now other.now d }
{
    let p = usize::from(d / 8);
    let x = byte_of(own, p);
    if x == byte_of(other, p) {
        2
    } else {
        bit_of(x, usize::from(d % 8))
    }
}

// The byte by which the element in a slot was told from the one before it; 0 where the slot is free.
fn told_by(tree: Nodes, slot: usize) -> usize
    requires { Asking tree slot }
{
    match tree.element(slot) {
        None => 0,
        Some(j) => usize::from(tree.depths[j] / 8),
    }
}

// Whether the id is the one that it meets. Only one that goes to the third slot can be. The element there differs from the one that is met in a known byte, and
// most ids that pass differ in it too, so that byte is compared first.
fn is_same(own: &[u8], other: &[u8], side: usize, tree: Nodes, slot: usize) -> bool
    requires sided { Sided own.now other.now side }
    requires asking { Asking tree slot }
    ensures { result ≡ same_text own.now other.now }
{
    if side != 2 {
        return false;
    }
    let p = told_by(tree, slot);
    byte_of(own, p) == byte_of(other, p) && base::same_text(own, other)
}

// The id of element `i` meets element `j`: the slot where its walk goes on, if it is another id.
fn meet(places: Places, tree: Nodes, i: usize, j: usize) -> Option<usize>
    requires { Turning places tree i j }
    ensures { result ≡ turn_of (ids_of places.entry i) (ids_of places.entry j) j (get_or tree.entry.depths.now j 0) }
{
    let own = places.id(i);
    let other = places.id(j);
    let side = side_of(own, other, tree.depths[j]);
    let slot = HEADS + 3 * j + side;
    if is_same(own, other, side, tree, slot) {
        None
    } else {
        Some(slot)
    }
}

// The walk of the id of element `i` among the elements before it, to the free slot where the element goes, if its id did not occur before.
fn find(places: Places, tree: Nodes, i: usize) -> Option<usize>
    requires { Seeking places tree i }
    ensures { Sought (ids_of places.entry) tree.entry.depths.now tree.entry.kids.now i result }
{
    let mut slot = head_of(places.id(i));
    while let Some(j) = tree.element(slot) {
        slot = meet(places, tree, i, j)?;
    }
    Some(slot)
}

// The depth of element `i`, which goes into a slot: the next bit where it went by a bit, else the first byte in which it differs from the element that it met.
// No answer depends on it; the cost does. Along a walk no byte is asked again after it was the same, so that a walk meets at most eight elements for each byte.
fn depth_in(places: Places, depths: &[u8], slot: usize, i: usize) -> u8
    requires { Placing places depths.now slot i }
{
    if slot < HEADS {
        return 8;
    }
    let j = (slot - HEADS) / 3;
    if (slot - HEADS) % 3 < 2 {
        return depths[j].saturating_add(1);
    }
    let p = base::common_len(places.id(i), places.id(j));
    (8 * (p % 32)) as u8
}

// How many of the first `n` ids come before the first that occurred before: all of them, where none did. `depths` and `kids` are room for the tree.
pub fn first_repeat<'a>(
    line: &'a [u8],
    starts: &'a [u16],
    lens: &'a [u8],
    n: usize,
    depths: &mut [u8],
    kids: &mut [u16],
) -> usize
    requires { Asked line.now starts.now lens.now n depths.old kids.old }
    ensures { FirstRepeat (id_of line.now starts.now lens.now) n result }
{
    let places = Places { line, starts, lens };
    for i in 0..n {
        let Some(slot) = find(places, Nodes { depths, kids }, i) else {
            return i;
        };
        depths[i] = depth_in(places, depths, slot, i);
        kids[slot] = (i + 1) as u16;
    }
    n
}

// Whether an element before `i` has the same id.
fn occurs(places: Places, i: usize) -> bool
    requires { Stand places (i + 1) }
    ensures { Occurs (ids_of places.entry) i result }
{
    let own = places.id(i);
    (0..i).any(|j| base::same_text(own, places.id(j)))
}

// The same as `first_repeat`, for few ids: each is compared with all before it, and no room is needed.
pub fn first_of_few<'a>(line: &'a [u8], starts: &'a [u16], lens: &'a [u8], n: usize) -> usize
    requires { Rows line.now starts.now lens.now n }
    ensures { FirstRepeat (id_of line.now starts.now lens.now) n result }
{
    let places = Places { line, starts, lens };
    (0..n).find(|i| occurs(places, *i)).unwrap_or(n)
}
