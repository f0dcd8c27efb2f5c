// The parameter table, an entry at a time: the two functions that touch the memory of one.
#![tactic(auto)]

ghost use Rattle.std.specs.Prelude.{◌≡◌, ◌<◌, length, get_or, set};
ghost use Rattle.record.specs.Params.{blank};

use record::Param;

// Stores an entry.
pub fn store(table: &mut [Param], i: usize, p: Param)
    requires { i < length table.old }
    ensures { table.new ≡ set table.old i p }
{
    table[i] = p;
}

// Fetches an entry.
pub fn fetch(table: &[Param], i: usize) -> Param
    requires { i < length table.now }
    ensures { result ≡ get_or table.now i blank }
{
    table[i]
}
