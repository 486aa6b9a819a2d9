// The merged frontier, written author by author.
ghost use Rattle.std.specs.Prelude.{◌≤◌, length};
ghost use Rattle.store.specs.Clauses.{table_in};
ghost use Rattle.logs.specs.Held.{chain_of};
ghost use Rattle.frontiers.specs.Found.{Holds, PutBehind};
ghost use Rattle.frontiers.specs.Merging.{joined_at, merged_numbers};
ghost use Rattle.frontiers.specs.Ready.{Frontiers};

use crate::reading::find_entry;
use crate::writing::write_slot;
use basics::narrow;
use logs::LogState;
use logs::merging::merge_states;
use store::Store;

// The join of author a's entries in f and g.
fn joined_entry(store: &Store, f: &[u16], g: &[u16], a: u16) -> Option<LogState>
    requires { Frontiers store.now.ids.now store.now.rows.now store.now.counts f.now g.now }
    ensures { Holds a (joined_at (chain_of (table_in store.now)) f.now g.now a) result }
{
    let first = find_entry(f, a);
    let second = find_entry(g, a);
    let Some(k) = first else {
        return second;
    };
    let Some(l) = second else {
        return Some(k);
    };
    Some(merge_states(store, k, l))
}

// Writes the merged frontier of f and g to the start of out, which has room for it; answers how many numbers it has.
pub fn write_merged(store: &Store, f: &[u16], g: &[u16], out: &mut [u16]) -> usize
    requires { Frontiers store.now.ids.now store.now.rows.now store.now.counts f.now g.now × (length (merged_numbers (chain_of (table_in store.now)) store.now.counts.authors f.now g.now) ≤ length out.old) }
    ensures { PutBehind out.old 0 (merged_numbers (chain_of (table_in store.now)) store.now.counts.authors f.now g.now) out.new result }
{
    let mut used = 0;
    for a in 1..=narrow(store.counts.authors) {
        let slot = joined_entry(store, f, g, a);
        used = write_slot(out, used, slot);
    }
    used
}
