// Rescue of a stick with holes: document 02, section 11. A salvage reads a damaged intake, keeps what an empty store admits, each next item
// the lowest-numbered one that it then admits, and writes the kept items as a clean intake.
#![tactic(auto)]

ghost use Rattle.std.specs.Prelude.{◌*◌, ◌≤◌, ◌≡◌, length};
ghost use Rattle.cutting.specs.Cutting.{items_of};
ghost use Rattle.morning.specs.Intake.{answer_width};
ghost use Rattle.store.specs.Clauses.{SameParts};
ghost use Rattle.salvage.specs.Marks.{BeginsIn};
ghost use Rattle.salvage.specs.Working.{lent_by};
ghost use Rattle.rescue.specs.Salvaging.{item_limit, empty_counts, lent_of, Rescues, Salvages};

use answers::Refusal;
use keeping::keep_all;
use listing::answer_all;
use marks::{fill_begins, free_all};
use morning::ANSWER_NUMBERS;
use rescue::Clean;
use store::{Counts, StoreMut};

mod keeping;
mod listing;
mod marks;
mod names;

// The most items of a stick.
pub const ITEM_LIMIT: usize = 1024;

// A place for where each item begins, and for where the last ends.
const PLACES: usize = 1025;

// Salvages the n items of a stick, of which the table has the beginnings, into lent parts that have room for all of them.
fn salvage_items(
    stick: &[u8],
    begins: &[usize],
    n: usize,
    store: &mut StoreMut,
    origins: &mut [u8],
    clean: &mut [u8],
    list: &mut [u16],
) -> Clean
    requires { (BeginsIn stick.now begins.now n × (store.old.counts ≡ empty_counts)) × ((length stick.now ≤ length clean.old) × (answer_width * n ≤ length list.old)) }
    ensures same { SameParts store.old store.new }
    ensures kept { Rescues stick.now (lent_by store.old origins.old clean.old list.old) (lent_by store.new origins.new clean.new list.new) result.items result.bytes result.counts }
{
    free_all(list, n);
    let bytes = keep_all(stick, begins, n, store, origins, clean, list);
    answer_all(stick, begins, n, store, origins, list);
    Clean {
        items: n,
        bytes,
        counts: store.counts,
    }
}

// Salvages the n items of a stick, which are no more than the limit, into lent parts that have room for all of them.
fn salvage_few(
    stick: &[u8],
    n: usize,
    store: &mut StoreMut,
    origins: &mut [u8],
    clean: &mut [u8],
    list: &mut [u16],
) -> Clean
    requires { (((n ≡ length (items_of stick.now)) × (n ≤ item_limit)) × (store.old.counts ≡ empty_counts)) × ((length stick.now ≤ length clean.old) × (answer_width * n ≤ length list.old)) }
    ensures same { SameParts store.old store.new }
    ensures kept { Rescues stick.now (lent_by store.old origins.old clean.old list.old) (lent_by store.new origins.new clean.new list.new) result.items result.bytes result.counts }
{
    let mut begins = [0usize; PLACES];
    fill_begins(stick, &mut begins);
    salvage_items(stick, &begins, n, store, origins, clean, list)
}

// Salvages a stick: the kept items into the store, which starts empty whatever its parts hold, and as a clean intake; and for each item of
// the stick two numbers, 0 and its place where it is kept, or else the answer and row that the final store gives it.
pub fn salvage(
    stick: &[u8],
    keys: &mut [u8],
    ids: &mut [u8],
    rows: &mut [u16],
    deps: &mut [u16],
    branches: &mut [u16],
    origins: &mut [u8],
    clean: &mut [u8],
    list: &mut [u16],
) -> Result<Clean, Refusal>
    ensures { Salvages stick.now (lent_of keys.old ids.old rows.old deps.old branches.old origins.old clean.old list.old) (lent_of keys.new ids.new rows.new deps.new branches.new origins.new clean.new list.new) result }
{
    let items = cutting::count_items(stick);
    if ITEM_LIMIT < items {
        return Err(Refusal::Size);
    }
    if clean.len() < stick.len() {
        return Err(Refusal::Room);
    }
    if list.len() / ANSWER_NUMBERS < items {
        return Err(Refusal::Room);
    }
    let counts = Counts {
        rows: 0,
        authors: 0,
        deps: 0,
    };
    let mut store = StoreMut {
        keys,
        ids,
        rows,
        deps,
        branches,
        counts,
    };
    Ok(salvage_few(stick, items, &mut store, origins, clean, list))
}
