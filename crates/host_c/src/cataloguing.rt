// The public catalogue: whether its authors are steady, who is not, and the admission under its profile.
ghost use Rattle.store.specs.Clauses.{table_of};
ghost use Rattle.host.specs.Catalogue.{TellsPlainly, NamesPlainly, CataloguesPlainly};

use plain::backsteps::BackstepAnswer;
use plain::{AdmitAnswer, YesAnswer};
use store::{Counts, Store, StoreMut};

// Admit an item into a store that keeps M7, and leave one that does: its row has the origin.
#[unsafe(no_mangle)]
pub extern "C" fn snowknoll_admit_catalogue(
    item: &[u8],
    origin: u8,
    keys: &mut [u8],
    ids: &mut [u8],
    rows: &mut [u16],
    deps: &mut [u16],
    branches: &mut [u16],
    origins: &mut [u8],
    counts: Counts,
) -> AdmitAnswer
    ensures { CataloguesPlainly
        (table_of keys.old ids.old rows.old deps.old branches.old counts)
        origins.old origin item.now
        (table_of keys.new ids.new rows.new deps.new branches.new result.counts) origins.new result }
{
    let mut store = StoreMut {
        keys,
        ids,
        rows,
        deps,
        branches,
        counts,
    };
    host::cataloguing::snowknoll_admit_catalogue(item, origin, &mut store, origins)
}

// Whether a store keeps M7.
#[unsafe(no_mangle)]
pub extern "C" fn snowknoll_steady(
    keys: &[u8],
    ids: &[u8],
    rows: &[u16],
    deps: &[u16],
    branches: &[u16],
    counts: Counts,
) -> YesAnswer
    ensures { TellsPlainly (table_of keys.now ids.now rows.now deps.now branches.now counts) result }
{
    let store = Store {
        keys,
        ids,
        rows,
        deps,
        branches,
        counts,
    };
    host::cataloguing::snowknoll_steady(&store)
}

// The lowest row that breaks M7, and the latest earlier row that it breaks it against.
#[unsafe(no_mangle)]
pub extern "C" fn snowknoll_backstep(
    keys: &[u8],
    ids: &[u8],
    rows: &[u16],
    deps: &[u16],
    branches: &[u16],
    counts: Counts,
) -> BackstepAnswer
    ensures { NamesPlainly (table_of keys.now ids.now rows.now deps.now branches.now counts) result }
{
    let store = Store {
        keys,
        ids,
        rows,
        deps,
        branches,
        counts,
    };
    host::cataloguing::snowknoll_backstep(&store)
}
