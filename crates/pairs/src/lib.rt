// Which of many texts does not occur as often among the first of them as among the others. Texts that are the same walk alike through a tree of them, and so find
// their class.
#![tactic(auto)]

ghost use Rattle.std.specs.Prelude.{◌≡◌, ◌+◌, ◌-◌, ◌*◌, ◌≤◌, ◌<◌, length, unwrap_or, slice_get, get_or};
ghost use Rattle.base.specs.Texts.{same_text};
ghost use Rattle.pairs.specs.Keys.{key_of, Keys};
ghost use Rattle.pairs.specs.Tree.{bit_of, side_of, turn_of, Turning, Seeking, Sought, Placing, Classed, Asked, Classes};
ghost use Rattle.pairs.specs.Odd.{is_odd, element_of, element_at, Least, Counted, Counting, unlike, Weighing, IfEven, Halved};

// The byte at place `p`, or 0 past the end.
fn byte_of(text: &[u8], p: usize) -> u8
    ensures { result ≡ get_or text.now p 0 }
{
    text.get(p).copied().unwrap_or(0)
}

fn bit_of(x: u8, b: usize) -> usize
    requires { b < 8 }
    ensures { result ≡ bit_of x b }
{
    usize::from((x >> b) % 2)
}

// To which of a text's three slots a text goes that meets it. The depth names a bit: `d % 8` of byte `d / 8`. A text with another byte there goes by its own bit; one
// with the same byte to the third slot.
fn side_of(own: &[u8], other: &[u8], d: usize) -> usize
    ensures { result ≡ side_of own.now other.now d }
{
    let p = d / 8;
    let x = byte_of(own, p);
    if x == byte_of(other, p) {
        2
    } else {
        bit_of(x, d % 8)
    }
}

fn element_of(key: &[u8]) -> usize
    ensures value { result ≡ element_of key.now }
    ensures upper_bound { result < 65536 }
{
    usize::from(byte_of(key, 0)) + 256 * usize::from(byte_of(key, 1))
}

// How often each class occurs.
fn count(classes: &[u16], counts: &mut [u16])
    requires { Counting classes.now counts.old }
    ensures { Counted classes.now 0 (length classes.now) counts.new }
{
    for c in classes {
        counts[usize::from(*c)] += 1;
    }
}

// A text that does not occur as often among the first as among the others: its number, which is that of all texts where there is none, and the element in its first
// two bytes.
#[derive(Clone, Copy)]
pub struct Odd {
    pub entry: usize,
    pub element: usize,
}

// Many texts in one: text `k` lies between `ends[k]` and `ends[k + 1]`.
#[derive(Clone, Copy)]
struct Texts<'a> {
    text: &'a [u8],
    ends: &'a [u16],
    count: usize,
    ghost in_order: { Keys text.now ends.now count },
    ghost few: { count < 65536 },
}

impl<'a> Texts<'a> {
    fn key(self, k: usize) -> &'a [u8]
        requires { k < self.count }
        ensures { result.now ≡ key_of self.entry.text.now self.entry.ends.now k }
    {
        let start = usize::from(self.ends[k]);
        let end = usize::from(self.ends[k + 1]);
        &self.text[start..end]
    }

    // Text `i` meets text `j`: the slot where a walk goes on, or none where they are the same.
    fn meet(self, depths: &[u16], i: usize, j: usize) -> Option<usize>
        requires { Turning self.count depths.now i j }
        ensures { result ≡ turn_of (key_of self.entry.text.now self.entry.ends.now i) (key_of self.entry.text.now self.entry.ends.now j) j (get_or depths.now j 0) }
    {
        let own = self.key(i);
        let other = self.key(j);
        if base::same_text(own, other) {
            None
        } else {
            Some(1 + 3 * j + side_of(own, other, usize::from(depths[j])))
        }
    }

    // The walk of text `i` among those before it: to the text that is the same, or else to the free slot where it goes. A slot holds the number of its text and one
    // more, 0 where it is free.
    fn find(self, depths: &[u16], kids: &[u16], i: usize) -> Result<usize, usize>
        requires { Seeking self.count depths.now kids.now i }
        ensures { Sought (key_of self.entry.text.now self.entry.ends.now) depths.now kids.now i result }
    {
        let mut slot = 0;
        while let Some(j) = usize::from(kids[slot]).checked_sub(1) {
            match self.meet(depths, i, j) {
                Some(next) => slot = next,
                None => return Ok(j),
            }
        }
        Err(slot)
    }

    // The depth of text `i`, which goes into a slot: the next bit where it went by a bit, else the first byte in which it differs from the one that it met. No answer
    // depends on it; the cost does. Along a walk no byte is asked again after it was the same, so that a walk meets at most nine texts for each byte.
    fn depth_in(self, depths: &[u16], slot: usize, i: usize) -> u16
        requires { Placing self.count depths.now slot i }
    {
        let Some(side) = slot.checked_sub(1) else {
            return 0;
        };
        let j = side / 3;
        if side % 3 < 2 {
            depths[j].saturating_add(1)
        } else {
            let p = base::common_len(self.key(i), self.key(j));
            (8 * (p % 8192)) as u16
        }
    }

    // The class of text `i`: the first text that is the same. One that is new goes into the tree.
    fn class_of(self, depths: &mut [u16], kids: &mut [u16], i: usize) -> usize
        requires { Seeking self.count depths.old kids.old i }
        ensures { Classed (key_of self.entry.text.now self.entry.ends.now) depths.old kids.old i result depths.new kids.new }
    {
        match self.find(depths, kids, i) {
            Ok(j) => j,
            Err(slot) => {
                depths[i] = self.depth_in(depths, slot, i);
                kids[slot] = (i + 1) as u16;
                i
            }
        }
    }

    // The classes of all texts. `depths` and `kids` are room for the tree.
    fn classify(self, depths: &mut [u16], kids: &mut [u16], classes: &mut [u16])
        requires { Asked self.count depths.old kids.old classes.old }
        ensures { Classes (key_of self.entry.text.now self.entry.ends.now) self.entry.count classes.new }
    {
        for (i, class) in classes.iter_mut().enumerate() {
            *class = self.class_of(depths, kids, i) as u16;
        }
    }

    fn element_at(self, i: usize) -> usize
        requires { i < self.count }
        ensures value { result ≡ element_at self.entry.text.now self.entry.ends.now i }
        ensures upper_bound { result < 65536 }
    {
        element_of(self.key(i))
    }

    // Of the texts whose class has unlike counts, the first one of the least element.
    fn least(self, classes: &[u16], left: &[u16], right: &[u16]) -> Odd
        requires { Weighing self.count classes.now left.now right.now }
        ensures { Least (unlike classes.now left.now right.now) (element_at self.entry.text.now self.entry.ends.now) self.entry.count result }
    {
        let mut best = Odd {
            entry: self.count,
            element: 65536,
        };
        for (i, class) in classes.iter().enumerate() {
            let c = usize::from(*class);
            if left[c] != right[c] {
                let element = self.element_at(i);
                if element < best.element {
                    best = Odd { entry: i, element };
                }
            }
        }
        best
    }

    fn is_same(self, i: usize, j: usize) -> bool
        requires i_bound { i < self.count }
        requires j_bound { j < self.count }
        ensures { result ≡ same_text (key_of self.entry.text.now self.entry.ends.now i) (key_of self.entry.text.now self.entry.ends.now j) }
    {
        base::same_text(self.key(i), self.key(j))
    }

    // Whether the others are the first `m`, one by one.
    fn is_even(self, m: usize) -> bool
        requires { m ≤ self.count }
        ensures { IfEven (key_of self.entry.text.now self.entry.ends.now) m self.entry.count result }
    {
        self.count - m == m && (0..m).all(|i| self.is_same(i, m + i))
    }

    // Of the texts that do not occur as often among the first `m` as among the others, the first one of the least element: by the counts of their classes, in tables for
    // `N` texts. They are on the stack and are cleared, so that each number of texts pays for a size that fits it.
    fn counted_odd<const N: usize, const SLOTS: usize>(self, m: usize) -> Odd
        requires m_bound { m ≤ self.count }
        requires room { self.count ≤ N }
        requires slots { 1 + 3 * N ≤ SLOTS }
        requires small { SLOTS < 65536 }
        ensures { Least (is_odd (key_of self.entry.text.now self.entry.ends.now) m self.entry.count) (element_at self.entry.text.now self.entry.ends.now) self.entry.count result }
    {
        let mut depths = [0u16; N];
        let mut kids = [0u16; SLOTS];
        let mut classes = [0u16; N];
        let mut left = [0u16; N];
        let mut right = [0u16; N];
        let classes = &mut classes[..self.count];
        self.classify(&mut depths, &mut kids, classes);
        let (first, others) = classes.split_at(m);
        count(first, &mut left);
        count(others, &mut right);
        self.least(classes, &left, &right)
    }
}

// Of the texts that do not occur as often among the first `m` as among the others, the first one of the least element. Most are the same one by one. A parameter has
// five bytes or more: no two lines of 8,192 bytes have more than 3,276.
pub fn first_odd<'a>(text: &'a [u8], ends: &'a [u16], m: usize, n: usize) -> Odd
    requires halved { Halved text.now ends.now m n }
    requires n_bound { n ≤ 3276 }
    ensures { Least (is_odd (key_of text.now ends.now) m n) (element_at text.now ends.now) n result }
{
    let texts = Texts {
        text,
        ends,
        count: n,
    };
    if texts.is_even(m) {
        Odd {
            entry: n,
            element: 65536,
        }
    } else if n <= 32 {
        texts.counted_odd::<32, 97>(m)
    } else if n <= 512 {
        texts.counted_odd::<512, 1537>(m)
    } else {
        texts.counted_odd::<3276, 9829>(m)
    }
}
