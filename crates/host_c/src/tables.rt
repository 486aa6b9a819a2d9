// The store: whether it is well formed, and lookups in it.
ghost use Rattle.std.specs.Prelude.{◌≡◌};
ghost use Rattle.store.specs.Clauses.{table_of};
ghost use Rattle.host.specs.Calls.{Inspects, place_among};

use store::{Counts, Store};

// Whether the lent parts, with the counts, are a well_formed store: 0, or 1 STORE.
#[unsafe(no_mangle)]
pub extern "C" fn snowknoll_well_formed(
    keys: &[u8],
    ids: &[u8],
    rows: &[u16],
    deps: &[u16],
    branches: &[u16],
    counts: Counts,
) -> u16
    ensures { Inspects (table_of keys.now ids.now rows.now deps.now branches.now counts) result }
{
    let store = Store {
        keys,
        ids,
        rows,
        deps,
        branches,
        counts,
    };
    host::tables::snowknoll_well_formed(&store)
}

// The row among the first count whose id is id; 0 where there is none.
#[unsafe(no_mangle)]
pub extern "C" fn snowknoll_find_id(ids: &[u8], count: usize, id: &[u8; 32]) -> usize
    ensures { result ≡ place_among ids.now count id.now }
{
    host::tables::snowknoll_find_id(ids, count, id)
}

// The author among the first count whose key is key; 0 where there is none.
#[unsafe(no_mangle)]
pub extern "C" fn snowknoll_find_key(keys: &[u8], count: usize, key: &[u8; 32]) -> usize
    ensures { result ≡ place_among keys.now count key.now }
{
    host::tables::snowknoll_find_key(keys, count, key)
}
