// Where a line broke that the strict reader refuses with 4: how many bytes of it some line of the strict grammar also begins with, at most.
#![tactic(auto)]

ghost use Rattle.std.specs.Prelude.{◌≡◌, ◌≤◌, length};
ghost use Rattle.record.specs.Limits.{line_limit};
ghost use Rattle.viable.specs.Viable.{Reports};
ghost use Rattle.reach.specs.Lines.{body_at, line_at};

// The structured data, and what is after it.
fn body(line: &[u8], at: usize) -> Result<usize, usize>
    requires { length line.now ≤ line_limit }
    ensures { result ≡ body_at line.now at }
{
    let n = reach_data::data(line, at)?;
    reach_data::message(line, n)
}

fn walk(line: &[u8]) -> Result<usize, usize>
    requires { length line.now ≤ line_limit }
    ensures { result ≡ line_at line.now 0 }
{
    let n = reach_header::header(line)?;
    body(line, n)
}

// What is reported of a line: where it broke, or 0 where it did not, or where it is too long to be read.
pub fn reach(line: &[u8]) -> usize
    ensures { Reports line.now result }
{
    if record::LINE_LIMIT < line.len() {
        return 0;
    }
    match walk(line) {
        Ok(_) => 0,
        Err(at) => at,
    }
}
