// The functions of desk_host under their C names, for studios' programs to link: each calls the function of the same name, and has its
// clauses.
#![tactic(auto)]

ghost use Rattle.store.specs.Clauses.{table_of};
ghost use Rattle.desk.specs.Desk.{desk_of};
ghost use Rattle.desk_host.specs.Calls.{DeskPlainly, ShowsPlainly};

use desk_host::ReleaseAnswer;
use plain::AdmitAnswer;
use store::{Counts, Store, StoreMut};

// Admit a release into a store: its row has the origin, its component number and its expanded byte.
#[unsafe(no_mangle)]
pub extern "C" fn snowknoll_desk_admit(
    item: &[u8],
    origin: u8,
    keys: &mut [u8],
    ids: &mut [u8],
    rows: &mut [u16],
    deps: &mut [u16],
    branches: &mut [u16],
    origins: &mut [u8],
    components: &mut [u16],
    expanded: &mut [u8],
    counts: Counts,
) -> AdmitAnswer
    ensures { DeskPlainly
        (table_of keys.old ids.old rows.old deps.old branches.old counts)
        (desk_of origins.old components.old expanded.old) origin item.now
        (table_of keys.new ids.new rows.new deps.new branches.new result.counts)
        (desk_of origins.new components.new expanded.new) result }
{
    let mut store = StoreMut {
        keys,
        ids,
        rows,
        deps,
        branches,
        counts,
    };
    desk_host::snowknoll_desk_admit(item, origin, &mut store, origins, components, expanded)
}

// The current release of a component in a frontier.
#[unsafe(no_mangle)]
pub extern "C" fn snowknoll_current_release(
    keys: &[u8],
    ids: &[u8],
    rows: &[u16],
    deps: &[u16],
    branches: &[u16],
    counts: Counts,
    f: &[u16],
    components: &[u16],
    expanded: &[u8],
    owners: &[u16],
    component: u16,
) -> ReleaseAnswer
    ensures { ShowsPlainly (table_of keys.now ids.now rows.now deps.now branches.now counts) f.now components.now expanded.now owners.now component result }
{
    let store = Store {
        keys,
        ids,
        rows,
        deps,
        branches,
        counts,
    };
    desk_host::snowknoll_current_release(&store, f, components, expanded, owners, component)
}
