// A claimed reading of a line, as another's parser delivers it: what must be true of it (specs/), and that a check field after field tells it (proofs/). The code of
// the check is in `claim_header`, `claim_data` and `checker`.
#![tactic(auto)]

ghost use Rattle.std.specs.Prelude.{◌≡◌, ◌<◌};
ghost use Rattle.claims.specs.Holds.{byte_next};

// The byte `b`.
pub fn byte_next(line: &[u8], at: usize, b: u8) -> Option<usize>
    requires { 0 < b }
    ensures { result ≡ byte_next line.now at b }
{
    if base::is_at(line, at, b) {
        Some(at + 1)
    } else {
        None
    }
}
