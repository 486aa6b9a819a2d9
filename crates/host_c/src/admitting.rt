// Admission, and the report of who handed us a row.
ghost use Rattle.std.specs.Prelude.{◌-◌, take, drop};
ghost use Rattle.store.specs.Clauses.{table_of};
ghost use Rattle.host.specs.Calls.{AdmitsPlainly, ReportsPlainly};

use plain::{AdmitAnswer, OriginAnswer};
use store::{Counts, Store, StoreMut};

// Admit an item into a store: its row has the origin.
#[unsafe(no_mangle)]
pub extern "C" fn snowknoll_admit(
    item: &[u8],
    origin: u8,
    keys: &mut [u8],
    ids: &mut [u8],
    rows: &mut [u16],
    deps: &mut [u16],
    branches: &mut [u16],
    origins: &mut [u8],
    counts: Counts,
) -> AdmitAnswer
    ensures { AdmitsPlainly
        (table_of keys.old ids.old rows.old deps.old branches.old counts)
        origins.old origin item.now
        (table_of keys.new ids.new rows.new deps.new branches.new result.counts) origins.new result }
{
    let mut store = StoreMut {
        keys,
        ids,
        rows,
        deps,
        branches,
        counts,
    };
    host::admitting::snowknoll_admit(item, origin, &mut store, origins)
}

// Admit the item that lies in an intake from one place to another, where it lies. Places past the end are the end.
#[unsafe(no_mangle)]
pub extern "C" fn snowknoll_admit_at(
    intake: &[u8],
    start: usize,
    end: usize,
    origin: u8,
    keys: &mut [u8],
    ids: &mut [u8],
    rows: &mut [u16],
    deps: &mut [u16],
    branches: &mut [u16],
    origins: &mut [u8],
    counts: Counts,
) -> AdmitAnswer
    ensures { AdmitsPlainly
        (table_of keys.old ids.old rows.old deps.old branches.old counts)
        origins.old origin (take (end - start) (drop start intake.now))
        (table_of keys.new ids.new rows.new deps.new branches.new result.counts) origins.new result }
{
    let mut store = StoreMut {
        keys,
        ids,
        rows,
        deps,
        branches,
        counts,
    };
    host::admitting::snowknoll_admit_at(intake, start, end, origin, &mut store, origins)
}

// The origin of a row.
#[unsafe(no_mangle)]
pub extern "C" fn snowknoll_origin(
    keys: &[u8],
    ids: &[u8],
    rows: &[u16],
    deps: &[u16],
    branches: &[u16],
    origins: &[u8],
    counts: Counts,
    row: u16,
) -> OriginAnswer
    ensures { ReportsPlainly
        (table_of keys.now ids.now rows.now deps.now branches.now counts)
        origins.now row result }
{
    let store = Store {
        keys,
        ids,
        rows,
        deps,
        branches,
        counts,
    };
    host::admitting::snowknoll_origin(&store, origins, row)
}
