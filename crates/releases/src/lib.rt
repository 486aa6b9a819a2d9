// The current release of a component: document 02, section 14.
#![tactic(auto)]

ghost use Rattle.store.specs.Clauses.{table_in};
ghost use Rattle.releases.specs.Calls.{Answers};

use answers::Refusal;
use asking::check_asked;
use basics::wide;
use frontiers::reading::find_entry;
use showing::show_entry;
use store::Store;

mod asking;
mod showing;

// How many components the table of owners has.
pub const COMPONENTS: usize = 512;

// A release as the desk shows it: its row and index, whether its menu starts expanded, and whether its owner's log is frozen.
#[derive(Clone, Copy)]
pub struct Shown {
    pub row: u16,
    pub index: u16,
    pub expanded: bool,
    pub frozen: bool,
}

// The current release of a component: its owner's message with the highest index among those at or before the last row of the owner's
// entry that carry it.
pub fn current_release(
    store: &Store,
    f: &[u16],
    components: &[u16],
    expanded: &[u8],
    owners: &[u16],
    component: u16,
) -> Result<Option<Shown>, Refusal>
    ensures { Answers (table_in store.now) f.now components.now expanded.now owners.now component result }
{
    let Store { rows, counts, .. } = *store;
    check_asked(store, f, components, expanded, owners, component)?;
    let owner = owners[wide(component) - 1];
    if owner == 0 {
        return Ok(None);
    }
    let Some(state) = find_entry(f, owner) else {
        return Ok(None);
    };
    show_entry(rows, counts.rows, components, expanded, state, component)
}
