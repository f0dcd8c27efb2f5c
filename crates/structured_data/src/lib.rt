// structured_data.rs: elements and their parameters, counted first and then stored into lent tables.
#![tactic(auto)]

ghost use Rattle.std.specs.Prelude.{◌≡◌, false, [], ◌∷◌, ◌+◌, ◌^◌, ◌≤◌, ◌<◌, leb, eqb, length, drop, set, if◌then◌else◌};
ghost use Rattle.base.specs.Runs.{run, eight};
ghost use Rattle.record.specs.Params.{rows};
ghost use Rattle.structured_data.specs.Param.{is_named, quoted_len, param_at};
ghost use Rattle.structured_data.specs.Element.{id_len};
ghost use Rattle.structured_data.specs.Element.Element.{no_element};
ghost use Rattle.structured_data.specs.Data.{item_of, hyphen_at, data_from};
ghost use Rattle.structured_data.specs.Tables.{counts_of, Room, Fills};
ghost use Rattle.structured_data.specs.Steps.{is_plain, value_end, entry_of, Stops, Ends, Holds, Stores, open_from, ends_list, turn_of, Stop, Closes, Turns};

// Which lines the rules are of: they differ in a hyphen, and in what follows an element that fails or has no parameters.
#[derive(Clone, Copy)]
pub enum Rules {
    Rfc3164Rules,
    Rfc5424Rules,
}

// A parameter at the front of a part: the length of its name, the start and the length of its value, and the length of all.
#[derive(Clone, Copy)]
pub struct Param {
    pub name: usize,
    pub value: usize,
    pub value_len: usize,
    pub len: usize,
}

// The parameters of an element: their count, and the position after them.
#[derive(Clone, Copy)]
struct Walk {
    count: usize,
    next: usize,
}

// A parameter's entry, and the position after it: where it would have started, if there is none.
#[derive(Clone, Copy)]
struct Entry {
    row: record::Param,
    next: usize,
}

// The front of an element: the length of its id, 0 where no element starts; and where its parameters start.
#[derive(Clone, Copy)]
struct Open {
    id: usize,
    start: usize,
}

// What a step over the list adds to the counts, and where it goes on: where it was, if the list ends. A walk that passes a `]` before `dead` fails.
#[derive(Clone, Copy)]
struct Turn {
    elements: usize,
    params: usize,
    next: usize,
    dead: usize,
}

// The counts of elements and parameters, and the position after them.
#[derive(Clone, Copy)]
pub struct Counts {
    pub elements: usize,
    pub params: usize,
    pub next: usize,
}

// Whether a name or an id may have the byte. Letters are asked for first.
fn is_named(b: u8) -> bool
    ensures { result ≡ is_named b }
{
    !((b == b']') | (b == b'='))
}

// How many bytes at the front of `s` may be a name's. (By index: a chain costs two instructions a byte more, and the value behind it three.)
fn name_run(s: &[u8]) -> usize
    ensures { result ≡ run is_named s.now }
{
    let mut i = 0;
    while i < s.len() {
        let b = s[i];
        if 94 <= b {
            i += 1;
        } else {
            if !is_named(b) {
                return i;
            }
            i += 1;
        }
    }
    i
}

// How many bytes of a value come before the quote that ends it: a backslash is passed with what it takes.
fn quoted_len(s: &[u8]) -> usize
    ensures { result ≡ quoted_len false s.now }
{
    let n = s.len();
    let mut i = 0;
    while i < n {
        let b = s[i];
        if b == b'"' {
            return i;
        }
        if b == b'\\' {
            if n - i < 2 {
                return n;
            }
            i += 2;
        } else {
            i += 1;
        }
    }
    i
}

// The position of the quote that ends the value whose first quote is at `quote`.
fn value_end(s: &[u8], quote: usize) -> Option<usize>
    ensures { result ≡ value_end s.now quote }
{
    if !base::is_at(s, quote, b'"') {
        return None;
    }
    let end = quote + 1 + quoted_len(base::past(s, quote + 1));
    if !base::is_at(s, end, b'"') {
        return None;
    }
    Some(end)
}

// The parameter at the front of `s`.
pub fn param_at(s: &[u8]) -> Option<Param>
    ensures { result ≡ param_at s.now }
{
    let name = name_run(s);
    if name == 0 || !base::is_at(s, name, b'=') {
        return None;
    }
    let quote = parsers::blanks_from(s, name + 1);
    let end = value_end(s, quote)?;
    let value = quote + 1;
    Some(Param {
        name,
        value,
        value_len: end - value,
        len: end + 1,
    })
}

// Whether the first eight bytes are ASCII above the space that ends no id. All are asked, so that the compiler makes one test of them.
fn eight_plain(s: &[u8]) -> bool
    requires { 8 ≤ length s.now }
    ensures { result ≡ eight is_plain s.now 0 }
{
    ((33 <= s[0]) & (s[0] <= 127) & !((s[0] == b']') | (s[0] == b'=')))
        & ((33 <= s[1]) & (s[1] <= 127) & !((s[1] == b']') | (s[1] == b'=')))
        & ((33 <= s[2]) & (s[2] <= 127) & !((s[2] == b']') | (s[2] == b'=')))
        & ((33 <= s[3]) & (s[3] <= 127) & !((s[3] == b']') | (s[3] == b'=')))
        & ((33 <= s[4]) & (s[4] <= 127) & !((s[4] == b']') | (s[4] == b'=')))
        & ((33 <= s[5]) & (s[5] <= 127) & !((s[5] == b']') | (s[5] == b'=')))
        & ((33 <= s[6]) & (s[6] <= 127) & !((s[6] == b']') | (s[6] == b'=')))
        & ((33 <= s[7]) & (s[7] <= 127) & !((s[7] == b']') | (s[7] == b'=')))
}

// How many bytes in front are of an id, by eight: most ids have as many.
fn id_front(s: &[u8]) -> usize
    ensures upper_bound { result ≤ length s.now }
    ensures s_value { id_len s.now ≡ result + id_len (drop result s.now) }
{
    if s.len() < 8 {
        return 0;
    }
    if !eight_plain(s) {
        return 0;
    }
    8
}

// How many bytes of `s` come before its first white character, `]` or `=`. ASCII above the space is not asked for white.
fn id_len(s: &[u8]) -> usize
    ensures { result ≡ id_len s.now }
{
    let mut i = id_front(s);
    while i < s.len() {
        let b = s[i];
        if !is_named(b) {
            return i;
        }
        if (33 <= b) & (b <= 127) {
            i += 1;
        } else {
            let w = white::white_len(&s[i..]);
            if w != 0 {
                return i;
            }
            i += 1;
        }
    }
    i
}

// The entry of a parameter of element `e` at `start`.
fn entry_from(s: &[u8], e: usize, start: usize) -> Entry
    requires { start ≤ length s.now }
    ensures { result ≡ entry_of e start (param_at (drop start s.now)) }
{
    let Some(param) = param_at(base::past(s, start)) else {
        return Entry {
            row: record::blank(),
            next: start,
        };
    };
    let row = record::Param {
        element: e,
        name_start: start,
        name_len: param.name,
        value_start: start + param.value,
        value_len: param.value_len,
    };
    Entry {
        row,
        next: start + param.len,
    }
}

fn row_of(entry: Entry) -> record::Param
    ensures { result ≡ entry.row }
{
    let row = entry.row;
    row
}

fn walk_to(count: usize, next: usize) -> Walk
    ensures { result ≡ record { count = count; next = next } }
{
    Walk { count, next }
}

// The parameters at `at`: none, or one and those after it, each after one space. Past `stop` the walk is given up, since it fails.
fn walk_params(s: &[u8], at: usize, stop: usize) -> Walk
    requires { Stops s.now at stop }
    ensures { Ends s.now at result }
{
    let mut count = 0;
    let mut next = at;
    let mut start = at;
    loop {
        let entry = entry_from(s, 0, start);
        let behind = entry.next;
        if behind == start {
            return Walk { count, next };
        }
        if stop < behind {
            return Walk { count: 0, next: at };
        }
        count += 1;
        next = behind;
        if !base::is_at(s, next, b' ') {
            return Walk { count, next };
        }
        start = next + 1;
    }
}

// The same for element `e`, with its rows stored from index `first` on. Where they reach `end` the walk is given up, since it fails.
fn fill_params(
    s: &[u8],
    e: usize,
    at: usize,
    stop: usize,
    params: &mut [record::Param],
    first: usize,
    end: usize,
) -> Walk
    requires { Holds s.now at stop (rows params.old) first end }
    ensures { Stores s.now e at (rows params.old) first end result (rows params.new) }
{
    let mut count = 0;
    let mut next = at;
    let mut start = at;
    loop {
        let entry = entry_from(s, e, start);
        let behind = entry.next;
        if behind == start {
            return walk_to(count, next);
        }
        let i = first + count;
        if (i == end) | (stop < behind) {
            return walk_to(0, at);
        }
        let row = row_of(entry);
        entries::store(params, i, row);
        count += 1;
        next = behind;
        let more = base::is_at(s, next, b' ');
        if more {
            start = next + 1;
        } else {
            return walk_to(count, next);
        }
    }
}

// The front of an element at `at`.
fn open_from(s: &[u8], at: usize) -> Open
    ensures { result ≡ open_from s.now at }
{
    if !base::is_at(s, at, b'[') {
        return Open {
            id: 0,
            start: s.len(),
        };
    }
    let id = id_len(base::past(s, at + 1));
    if id == 0 {
        return Open {
            id: 0,
            start: s.len(),
        };
    }
    Open {
        id,
        start: parsers::blanks_from(s, at + 1 + id),
    }
}

// RFC 3164: failing or parameterless elements end the list.
fn ends_list(rules: Rules) -> bool
    ensures { result ≡ ends_list rules }
{
    match rules {
        Rules::Rfc3164Rules => true,
        Rules::Rfc5424Rules => false,
    }
}

// The step at `at`, where no element can be read.
fn skip_from(rules: Rules, s: &[u8], at: usize, dead: usize) -> Turn
    ensures { result ≡ turn_of at dead (item_of rules at (drop at s.now) no_element) }
{
    let stay = Turn {
        elements: 0,
        params: 0,
        next: at,
        dead,
    };
    if ends_list(rules) {
        return stay;
    }
    if !base::is_at(s, at, b'[') {
        return stay;
    }
    let end = at + parsers::inside_run(base::past(s, at));
    if !base::is_at(s, end, b']') {
        return stay;
    }
    Turn {
        elements: 0,
        params: 0,
        next: end + 1,
        dead,
    }
}

fn later(a: usize, b: usize) -> usize
    ensures { result ≡ (if leb a b then b else a) }
{
    if a <= b { b } else { a }
}

// A `]` past which a walk from `at` fails: the first, if it stands before `dead`; else the end of the line.
fn stop_from(s: &[u8], at: usize, dead: usize) -> usize
    requires { dead ≤ length s.now }
    ensures { Stop s.now at dead result }
{
    if dead <= at {
        return s.len();
    }
    let end = at + parsers::inside_run(base::past(s, at));
    if dead <= end {
        return s.len();
    }
    end
}

// The step at `at`, from the walk over the parameters of the element whose id has `id` bytes. Each `]` that a failed walk passed is dead.
fn turn_from(rules: Rules, s: &[u8], at: usize, id: usize, walk: Walk, dead: usize) -> Turn
    requires { Closes s.now at id walk dead }
    ensures { Turns rules s.now at result }
{
    let count = walk.count;
    let end = walk.next;
    if id == 0 {
        return skip_from(rules, s, at, dead);
    }
    if !base::is_at(s, end, b']') {
        return skip_from(rules, s, at, later(dead, end));
    }
    if ends_list(rules) & (count == 0) {
        return Turn {
            elements: 0,
            params: 0,
            next: at,
            dead,
        };
    }
    Turn {
        elements: 1,
        params: count,
        next: end + 1,
        dead,
    }
}

// The counts of a list that started at `at`, and ended at `next`.
fn counts_at(at: usize, elements: usize, params: usize, next: usize) -> Option<Counts>
    ensures { result ≡ (if eqb next at then None else Some (record { elements = elements; params = params; next = next })) }
{
    if next == at {
        return None;
    }
    Some(Counts {
        elements,
        params,
        next,
    })
}

// RFC 5424: `-` says that there are no elements. RFC 3164: a hyphen there belongs to the message.
fn hyphen_at(rules: Rules, s: &[u8], at: usize) -> bool
    ensures { result ≡ hyphen_at rules s.now at }
{
    match rules {
        Rules::Rfc3164Rules => false,
        Rules::Rfc5424Rules => base::is_at(s, at, b'-'),
    }
}

// The structured data at `at`: its counts, and the position after it.
pub fn count_data(rules: Rules, s: &[u8], at: usize) -> Option<Counts>
    ensures { result ≡ counts_of (data_from rules s.now at) }
{
    if hyphen_at(rules, s, at) {
        return Some(Counts {
            elements: 0,
            params: 0,
            next: at + 1,
        });
    }
    let mut elements = 0;
    let mut params = 0;
    let mut i = at;
    let mut dead = 0;
    loop {
        let open = open_from(s, i);
        let stop = stop_from(s, i, dead);
        let walk = walk_params(s, open.start, stop);
        let turn = turn_from(rules, s, i, open.id, walk, dead);
        let next = turn.next;
        if next == i {
            return counts_at(at, elements, params, i);
        }
        elements += turn.elements;
        params += turn.params;
        i = next;
        dead = turn.dead;
    }
}

// The id of an element that starts at `start`.
fn put_id(elements: &mut [[usize; 2]], i: usize, start: usize, id: usize)
    requires i_in_bounds { i < length elements.old }
    requires start_bound { start + 1 < 2 ^ 64 }
    ensures { elements.new ≡ set elements.old i ((start + 1) ∷ id ∷ []) }
{
    elements[i] = [start + 1, id];
}

// The rows of the structured data at `at`, which has `e` elements and `p` parameters, into both tables. The rows of an element that turns out
// to fail are stored over.
pub fn fill_data(
    rules: Rules,
    s: &[u8],
    at: usize,
    e: usize,
    p: usize,
    elements: &mut [[usize; 2]],
    params: &mut [record::Param],
)
    requires { Room rules s.now at e p elements.old (rows params.old) }
    ensures { Fills rules s.now at elements.old (rows params.old) elements.new (rows params.new) }
{
    let mut i = 0;
    let mut j = 0;
    let mut start = at;
    let mut dead = 0;
    while i < e {
        let open = open_from(s, start);
        let id = open.id;
        let from = open.start;
        let stop = stop_from(s, start, dead);
        put_id(elements, i, start, id);
        let walk = fill_params(s, i, from, stop, params, j, p);
        let turn = turn_from(rules, s, start, id, walk, dead);
        i += turn.elements;
        j += turn.params;
        start = turn.next;
        dead = turn.dead;
    }
}
