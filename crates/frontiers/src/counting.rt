// How long a merged frontier is.
ghost use Rattle.std.specs.Prelude.{◌≤◌, ◌≡◌};
ghost use Rattle.store.specs.Limits.{author_limit};
ghost use Rattle.frontiers.specs.Entries.{entry_of};
ghost use Rattle.frontiers.specs.Numbers.{entries_of};
ghost use Rattle.frontiers.specs.Found.{present};
ghost use Rattle.frontiers.specs.Merging.{JoinedLength, MergedLength};

use crate::ENTRY_NUMBERS;
use crate::reading::find_entry;
use basics::narrow;

// Whether the frontier has an entry of author a.
pub fn has_entry(f: &[u16], a: u16) -> bool
    ensures { result ≡ present (entry_of (entries_of f.now) a) }
{
    find_entry(f, a).is_some()
}

// How many numbers the merged frontier has for author a.
fn joined_length(f: &[u16], g: &[u16], a: u16) -> usize
    ensures { JoinedLength f.now g.now a result }
{
    if has_entry(f, a) || has_entry(g, a) {
        ENTRY_NUMBERS
    } else {
        0
    }
}

// How many numbers the merged frontier has, for authors from 1 on.
pub fn merged_length(f: &[u16], g: &[u16], authors: usize) -> usize
    requires { authors ≤ author_limit }
    ensures { MergedLength authors f.now g.now result }
{
    let mut count = 0;
    let last = narrow(authors);
    for a in 1..=last {
        count += joined_length(f, g, a);
    }
    count
}
