// The order of frontiers, author by author.
ghost use Rattle.basics.specs.Decides.{Decides};
ghost use Rattle.store.specs.Clauses.{table_in};
ghost use Rattle.logs.specs.Held.{chain_of};
ghost use Rattle.frontiers.specs.Entries.{entry_of, BelowAt, FrontierBelow};
ghost use Rattle.frontiers.specs.Numbers.{entries_of};
ghost use Rattle.frontiers.specs.Ready.{Frontiers};

use crate::reading::find_entry;
use basics::narrow;
use logs::ordering::below_states;
use store::Store;

// Whether author a's entry in f, if any, is at or below its entry in g.
fn below_entry(store: &Store, f: &[u16], g: &[u16], a: u16) -> bool
    requires { Frontiers store.now.ids.now store.now.rows.now store.now.counts f.now g.now }
    ensures { Decides (BelowAt (chain_of (table_in store.now)) (entry_of (entries_of f.now) a) (entry_of (entries_of g.now) a)) result }
{
    let Some(k) = find_entry(f, a) else {
        return true;
    };
    let Some(l) = find_entry(g, a) else {
        return false;
    };
    below_states(store, k, l)
}

// Whether f is at or below g.
pub fn frontier_below(store: &Store, f: &[u16], g: &[u16]) -> bool
    requires { Frontiers store.now.ids.now store.now.rows.now store.now.counts f.now g.now }
    ensures { Decides (FrontierBelow (chain_of (table_in store.now)) (entries_of f.now) (entries_of g.now)) result }
{
    for a in 1..=narrow(store.counts.authors) {
        if !below_entry(store, f, g, a) {
            return false;
        }
    }
    true
}
