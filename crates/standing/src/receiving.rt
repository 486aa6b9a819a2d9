// What is read of an item of kind 3, by the rows of a store.
ghost use Rattle.std.specs.Prelude.{◌+◌, ◌*◌, ◌≤◌, ◌≡◌, length};
ghost use Rattle.basics.specs.Decides.{Decides};
ghost use Rattle.basics.specs.Chunk.{chunk_size};
ghost use Rattle.chunks.specs.Lookup.{place_of};
ghost use Rattle.store.specs.Limits.{row_limit, author_limit};
ghost use Rattle.logs.specs.Held.{Sound};
ghost use Rattle.logs.specs.States.{state_of};
ghost use Rattle.frontiers.specs.Numbers.{entry_width};
ghost use Rattle.frontiers.specs.Found.{Holds, PutBehind};
ghost use Rattle.kind3.specs.Offsets.{entry_size};
ghost use Rattle.kind3.specs.Entries.{HasEntry, HasEntries, chunk_in};
ghost use Rattle.standing.specs.Finding.{LastHeld, EvidenceHeld, EntryHeld, AllHeld, last_row_in, rows_in, read_at, read_numbers, MayRead, Keeps, Takes};

use answers::Refusal;
use basics::{narrow, wide};
use chunks::{piece_at, same};
use frontiers::checking::frontier_valid;
use frontiers::writing::write_slot;
use kind3::entries::{byte_in, chunk_in, keys_rise, zeros_kept};
use kind3::{TO_HIGH, TO_LAST, TO_LOW, TO_PHASE, TO_PRESENCE};
use logs::{LogState, Phase};
use store::Store;

// How many numbers a frontier of as many entries as an item may have takes.
const FRONTIER_NUMBERS: usize = 320;

// The row that has the id at a place of entry i; 0 where the store lacks it.
fn row_with(ids: &[u8], rows: usize, item: &[u8], i: usize, to: usize) -> u16
    requires { (rows ≤ row_limit) × (HasEntry item.now i × (to + chunk_size ≤ entry_size)) }
    ensures { result ≡ place_of ids.now rows (chunk_in item.now i to) }
{
    let found = store::find_id(ids, rows, chunk_in(item, i, to));
    let Some(row) = found else {
        return 0;
    };
    narrow(row)
}

// Whether the store holds the last id of entry i, where it applies.
fn last_held(ids: &[u8], rows: usize, item: &[u8], i: usize) -> bool
    requires { (rows ≤ row_limit) × HasEntry item.now i }
    ensures { Decides (LastHeld ids.now rows item.now i) result }
{
    if byte_in(item, i, TO_PRESENCE) == 0 {
        return true;
    }
    row_with(ids, rows, item, i, TO_LAST) != 0
}

// Whether the store holds the evidence ids of entry i, where they apply.
fn evidence_held(ids: &[u8], rows: usize, item: &[u8], i: usize) -> bool
    requires { (rows ≤ row_limit) × HasEntry item.now i }
    ensures { Decides (EvidenceHeld ids.now rows item.now i) result }
{
    if byte_in(item, i, TO_PHASE) == 0 {
        return true;
    }
    if row_with(ids, rows, item, i, TO_LOW) == 0 {
        return false;
    }
    row_with(ids, rows, item, i, TO_HIGH) != 0
}

// Whether the store holds the key of entry i and the ids that apply.
fn entry_held(store: &Store, item: &[u8], i: usize) -> bool
    requires { (store.now.counts.rows ≤ row_limit) × HasEntry item.now i }
    ensures { Decides (EntryHeld store.now.keys.now store.now.ids.now store.now.counts item.now i) result }
{
    let Store {
        keys,
        ids,
        counts,
        ..
    } = *store;
    let found = store::find_key(keys, counts.authors, chunk_in(item, i, 0));
    let Some(_author) = found else {
        return false;
    };
    if !last_held(ids, counts.rows, item, i) {
        return false;
    }
    evidence_held(ids, counts.rows, item, i)
}

// Whether the store holds every key and every id that applies.
pub fn all_held(store: &Store, item: &[u8], n: usize) -> bool
    requires { (store.now.counts.rows ≤ row_limit) × HasEntries item.now n }
    ensures { Decides (AllHeld store.now.keys.now store.now.ids.now store.now.counts item.now n) result }
{
    (0..n).all(|i| entry_held(store, item, i))
}

// The last row of entry i, or none.
fn last_with(ids: &[u8], rows: usize, item: &[u8], i: usize) -> u16
    requires { (rows ≤ row_limit) × HasEntry item.now i }
    ensures { result ≡ last_row_in ids.now rows item.now i }
{
    if byte_in(item, i, TO_PRESENCE) == 0 {
        return 0;
    }
    row_with(ids, rows, item, i, TO_LAST)
}

// The state of entry i, as an author's.
fn state_with(ids: &[u8], rows: usize, item: &[u8], i: usize, author: u16) -> LogState
    requires { (rows ≤ row_limit) × HasEntry item.now i }
    ensures { (result.author ≡ author) × (state_of result ≡ rows_in ids.now rows item.now i) }
{
    let last = last_with(ids, rows, item, i);
    if byte_in(item, i, TO_PHASE) == 0 {
        return LogState {
            author,
            last,
            phase: Phase::Growing,
        };
    }
    let low = row_with(ids, rows, item, i, TO_LOW);
    let high = row_with(ids, rows, item, i, TO_HIGH);
    LogState {
        author,
        last,
        phase: Phase::Forked(low, high),
    }
}

// What the item says of an author of the store, if it has an entry with the author's key.
fn slot_with(store: &Store, item: &[u8], n: usize, author: u16) -> Option<LogState>
    requires { (store.now.counts.rows ≤ row_limit) × HasEntries item.now n }
    ensures { Holds author (read_at store.now.keys.now store.now.ids.now store.now.counts item.now n author) result }
{
    let Store {
        keys,
        ids,
        counts,
        ..
    } = *store;
    for i in 0..n {
        if same(chunk_in(item, i, 0), piece_at(keys, wide(author))) {
            return Some(state_with(ids, counts.rows, item, i, author));
        }
    }
    None
}

// Writes what the item says of the store's authors to the start of out, and answers how many numbers it has.
fn read_entries(store: &Store, item: &[u8], n: usize, out: &mut [u16]) -> usize
    requires { (store.now.counts.rows ≤ row_limit) × ((store.now.counts.authors ≤ author_limit) × (HasEntries item.now n × (store.now.counts.authors * entry_width ≤ length out.old))) }
    ensures { PutBehind out.old 0 (read_numbers store.now.keys.now store.now.ids.now store.now.counts item.now n) out.new result }
{
    let Store { counts, .. } = *store;
    let mut used = 0;
    let authors = narrow(counts.authors);
    for a in 1..=authors {
        let slot = slot_with(store, item, n, a);
        used = write_slot(out, used, slot);
    }
    used
}

// Copies what was read to the start of out, unless it is no valid frontier or does not fit.
fn keep_frontier(store: &Store, read: &[u16], out: &mut [u16]) -> Result<usize, Refusal>
    requires { Sound store.now.ids.now store.now.rows.now store.now.counts.rows }
    ensures { Keeps store.now.ids.now store.now.rows.now store.now.counts read.now out.old out.new result }
{
    if !frontier_valid(store, read) {
        return Err(Refusal::Frontier);
    }
    if out.len() < read.len() {
        return Err(Refusal::Room);
    }
    basics::copy_at(out, 0, read);
    Ok(read.len())
}

// Takes what the item says as a frontier, unless it is none or does not fit, for callers that know its entries to be held.
pub fn take_entries(store: &Store, item: &[u8], n: usize, out: &mut [u16]) -> Result<usize, Refusal>
    requires { MayRead store.now.ids.now store.now.rows.now store.now.counts item.now n }
    ensures { Takes store.now.keys.now store.now.ids.now store.now.rows.now store.now.counts item.now n out.old out.new result }
{
    if !keys_rise(item, n) {
        return Err(Refusal::Frontier);
    }
    if !zeros_kept(item, n) {
        return Err(Refusal::Frontier);
    }
    let mut read = [0u16; FRONTIER_NUMBERS];
    let used = read_entries(store, item, n, &mut read);
    keep_frontier(store, &read[..used], out)
}
