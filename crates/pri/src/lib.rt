// pri.rs: the priority at the front of a line.
#![tactic(auto)]

ghost use Rattle.std.specs.Prelude.{◌≡◌};
ghost use Rattle.pri.specs.Pri.{facility_of, severity_of, pri_at};

// The facility and the severity, and where reading goes on: at 0 where there is no priority.
#[derive(Clone, Copy)]
pub struct Pri {
    pub next: usize,
    pub facility: Option<u8>,
    pub severity: Option<u8>,
}

const NO_PRI: Pri = Pri {
    next: 0,
    facility: None,
    severity: None,
};

fn facility_of(value: u32) -> Option<u8>
    ensures { result ≡ facility_of value }
{
    match value / 8 {
        facility @ 0..=23 => Some(facility as u8),
        _ => None,
    }
}

fn severity_of(value: u32) -> Option<u8>
    ensures { result ≡ severity_of value }
{
    Some((value % 8) as u8)
}

// `<`, digits of a value up to 255, `>`.
#[tactic(auto, unfolding(crate::specs::Pri::pri_at))]
pub fn read_pri(s: &[u8]) -> Pri
    ensures { result ≡ pri_at s.now }
{
    if !base::is_at(s, 0, b'<') {
        return NO_PRI;
    }
    match digits::digits(base::past(s, 1), 255) {
        Some((value, len)) if base::is_at(s, len + 1, b'>') => Pri {
            next: len + 2,
            facility: facility_of(value),
            severity: severity_of(value),
        },
        _ => NO_PRI,
    }
}
