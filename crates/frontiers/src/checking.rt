// Which frontiers are valid.
ghost use Rattle.std.specs.Prelude.{◌+◌, ◌-◌, ◌*◌, ◌≤◌, ◌<◌, length};
ghost use Rattle.basics.specs.Decides.{Decides};
ghost use Rattle.logs.specs.Held.{chain_of, Sound};
ghost use Rattle.frontiers.specs.Numbers.{entry_width, author_at, PhaseKept, EntryValid};
ghost use Rattle.frontiers.specs.Ready.{ValidOver};
ghost use Rattle.frontiers.specs.Calls.{ChecksTwo};
ghost use Rattle.store.specs.Clauses.{table_in};

use crate::ENTRY_NUMBERS;
use crate::reading::read_entry;
use answers::Refusal;
use logs::validity::valid_state;
use store::Store;

// Whether the phase of entry i is 0, with low and high 0, or 1.
fn phase_kept(f: &[u16], i: usize) -> bool
    requires { i * entry_width + entry_width ≤ length f.now }
    ensures { Decides (PhaseKept f.now i) result }
{
    let at = i * ENTRY_NUMBERS;
    f[at + 1] == 1 || (f[at + 1] == 0 && f[at + 3] == 0 && f[at + 4] == 0)
}

// Whether the author of entry i is above that of the entry before it, if there is one.
fn author_rises(f: &[u16], i: usize) -> bool
    requires { i * entry_width + entry_width ≤ length f.now }
    ensures { Decides (1 ≤ i → author_at f.now (i - 1) < author_at f.now i) result }
{
    i == 0 || f[(i - 1) * ENTRY_NUMBERS] < f[i * ENTRY_NUMBERS]
}

// Whether entry i is valid.
fn entry_valid(store: &Store, f: &[u16], i: usize) -> bool
    requires { Sound store.now.ids.now store.now.rows.now store.now.counts.rows × (i * entry_width + entry_width ≤ length f.now) }
    ensures { Decides (EntryValid (chain_of (table_in store.now)) store.now.counts.authors f.now i) result }
{
    phase_kept(f, i) && author_rises(f, i) && valid_state(store, read_entry(f, i))
}

// Whether a lent list is a valid frontier.
pub fn frontier_valid(store: &Store, f: &[u16]) -> bool
    requires { Sound store.now.ids.now store.now.rows.now store.now.counts.rows }
    ensures { Decides (ValidOver store.now.ids.now store.now.rows.now store.now.counts f.now) result }
{
    f.len() % ENTRY_NUMBERS == 0 && (0..f.len() / ENTRY_NUMBERS).all(|i| entry_valid(store, f, i))
}

// Tests the store, the first frontier and the second.
pub fn check_two(store: &Store, f: &[u16], g: &[u16]) -> Result<(), Refusal>
    ensures { ChecksTwo (table_in store.now) f.now g.now result }
{
    if !inspection::well_formed(store) {
        return Err(Refusal::Store);
    }
    if !frontier_valid(store, f) {
        return Err(Refusal::Frontier);
    }
    if !frontier_valid(store, g) {
        return Err(Refusal::Frontier);
    }
    Ok(())
}
