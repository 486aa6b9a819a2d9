// The entries of a lent frontier: five numbers each.
ghost use Rattle.std.specs.Prelude.{◌+◌, ◌*◌, ◌≤◌, ◌≡◌, length};
ghost use Rattle.frontiers.specs.Entries.{entry_of};
ghost use Rattle.frontiers.specs.Numbers.{entry_width, entries_of};
ghost use Rattle.frontiers.specs.Found.{Read, Holds};

use crate::ENTRY_NUMBERS;
use logs::{LogState, Phase};

// Entry i, which the frontier holds whole.
pub fn read_entry(f: &[u16], i: usize) -> LogState
    requires { i * entry_width + entry_width ≤ length f.now }
    ensures { Read f.now i result }
{
    let at = i * ENTRY_NUMBERS;
    let phase = if f[at + 1] == 0 {
        Phase::Growing
    } else {
        Phase::Forked(f[at + 3], f[at + 4])
    };
    LogState {
        author: f[at],
        last: f[at + 2],
        phase,
    }
}

// The entry of author a, or its absence.
pub fn find_entry(f: &[u16], a: u16) -> Option<LogState>
    ensures { Holds a (entry_of (entries_of f.now) a) result }
{
    for i in 0..f.len() / ENTRY_NUMBERS {
        let k = read_entry(f, i);
        if k.author == a {
            return Some(k);
        }
    }
    None
}
