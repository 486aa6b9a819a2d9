// What is asked of must be sound: the columns, the table of owners and the component asked for.
ghost use Rattle.std.specs.Prelude.{◌≤◌, length};
ghost use Rattle.basics.specs.Decides.{Decides};
ghost use Rattle.store.specs.Clauses.{table_in};
ghost use Rattle.releases.specs.Current.{component_limit};
ghost use Rattle.releases.specs.Calls.{Marked, ColumnsKept, OwnersKnown, ChecksAsked};

use crate::COMPONENTS;
use answers::Refusal;
use basics::wide;
use frontiers::checking::frontier_valid;
use store::Store;

// Whether each of the first n rows has a byte 0 or 1 in its place.
fn is_marked(expanded: &[u8], n: usize) -> bool
    requires { n ≤ length expanded.now }
    ensures { Decides (Marked expanded.now n) result }
{
    expanded[..n].iter().all(|mark| *mark <= 1)
}

// Whether the columns have a place for each of n rows, the expanded bytes there are 0 or 1, and the table has all components.
fn columns_kept(components: &[u16], expanded: &[u8], owners: &[u16], n: usize) -> bool
    ensures { Decides (ColumnsKept n components.now expanded.now owners.now) result }
{
    if components.len() < n {
        return false;
    }
    if expanded.len() < n {
        return false;
    }
    if owners.len() < COMPONENTS {
        return false;
    }
    is_marked(expanded, n)
}

// Whether no owner is above the author count.
fn owners_known(owners: &[u16], authors: usize) -> bool
    requires { component_limit ≤ length owners.now }
    ensures { Decides (OwnersKnown owners.now authors component_limit) result }
{
    owners[..COMPONENTS]
        .iter()
        .all(|owner| wide(*owner) <= authors)
}

// Tests the store, the frontier, the columns with the table, the owners and the component asked for, in this order.
pub fn check_asked(
    store: &Store,
    f: &[u16],
    components: &[u16],
    expanded: &[u8],
    owners: &[u16],
    component: u16,
) -> Result<(), Refusal>
    ensures { ChecksAsked (table_in store.now) f.now components.now expanded.now owners.now component result }
{
    let Store { counts, .. } = *store;
    if !inspection::well_formed(store) {
        return Err(Refusal::Store);
    }
    if !frontier_valid(store, f) {
        return Err(Refusal::Frontier);
    }
    if !columns_kept(components, expanded, owners, counts.rows) {
        return Err(Refusal::Payload);
    }
    if !owners_known(owners, counts.authors) {
        return Err(Refusal::Ownerless);
    }
    if component == 0 {
        return Err(Refusal::Component);
    }
    if COMPONENTS < wide(component) {
        return Err(Refusal::Component);
    }
    Ok(())
}
