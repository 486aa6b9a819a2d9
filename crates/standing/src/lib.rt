// Sending our standing: document 02, section 3. An item of kind 3 from a store and a frontier, and a frontier of another store from it.
#![tactic(auto)]

ghost use Rattle.store.specs.Clauses.{table_in};
ghost use Rattle.standing.specs.Calls.{WritesStanding, ReadsStanding};

use answers::Refusal;
use frontiers::ENTRY_NUMBERS;
use frontiers::checking::frontier_valid;
use kind3::entries::flags_kept;
use kind3::{AT_ENTRIES, ENTRY_SIZE};
use receiving::{all_held, take_entries};
use sending::put_standing;
use store::Store;

mod receiving;
mod sending;

// Writes what a frontier says by keys and ids, an item of kind 3, to the start of out, and answers how many bytes it has.
pub fn write_standing(store: &Store, f: &[u16], out: &mut [u8]) -> Result<usize, Refusal>
    ensures { WritesStanding (table_in store.now) f.now out.old out.new result }
{
    let Store { keys, ids, .. } = *store;
    if !inspection::well_formed(store) {
        return Err(Refusal::Store);
    }
    if !frontier_valid(store, f) {
        return Err(Refusal::Frontier);
    }
    let size = AT_ENTRIES + ENTRY_SIZE * (f.len() / ENTRY_NUMBERS);
    if out.len() < size {
        return Err(Refusal::Room);
    }
    put_standing(keys, ids, f, out);
    Ok(size)
}

// Reads an item of kind 3 into the store's own row numbers: writes the frontier to the start of out, and answers how many numbers it has.
pub fn read_standing(store: &Store, item: &[u8], out: &mut [u16]) -> Result<usize, Refusal>
    ensures { ReadsStanding (table_in store.now) item.now out.old out.new result }
{
    if !inspection::well_formed(store) {
        return Err(Refusal::Store);
    }
    let n = kind3::layout_of(item)?;
    if !flags_kept(item, n) {
        return Err(Refusal::Flag);
    }
    if !all_held(store, item, n) {
        return Err(Refusal::Unknown);
    }
    take_entries(store, item, n, out)
}
