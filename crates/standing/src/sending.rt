// What is sent of a frontier: its entries by rising key, written into a lent buffer.
ghost use Rattle.std.specs.Prelude.{◌+◌, ◌*◌, ◌/◌, ◌≤◌, ◌≡◌, [], ◌∷◌, length};
ghost use Rattle.basics.specs.Chunk.{chunk_size};
ghost use Rattle.chunks.specs.Piece.{piece_at};
ghost use Rattle.logs.specs.States.{state_of};
ghost use Rattle.frontiers.specs.Numbers.{entry_width};
ghost use Rattle.kind3.specs.Offsets.{at_entries, entry_size, entry_place};
ghost use Rattle.writing.specs.Laying.{laid_at};
ghost use Rattle.standing.specs.Bytes.{sent_bytes, entries_bytes, item_bytes};
ghost use Rattle.standing.specs.Selecting.{better_of, next_after, send_all, Sendable, MaySend, id_bytes, presence, rows_bytes, state_sent};

use basics::{copy_at, wide};
use chunks::{before, piece_at};
use frontiers::ENTRY_NUMBERS;
use frontiers::reading::read_entry;
use kind3::{AT_COUNT, AT_ENTRIES, ENTRY_SIZE, STANDING_KIND, TO_PHASE};
use logs::{LogState, Phase};
use writing::laying::{put16, put32};

// The entry that comes next after the key of the author last, of entry i and of the best before it; both counted from 1, 0 for none.
fn better_entry(keys: &[u8], f: &[u16], last: u16, best: usize, i: usize) -> usize
    requires { (best ≤ i) × (i * entry_width + entry_width ≤ length f.now) }
    ensures { (result ≡ better_of keys.now f.now (piece_at keys.now last) best i) × (result ≤ i + 1) }
{
    let key = piece_at(keys, wide(f[i * ENTRY_NUMBERS]));
    if !before(piece_at(keys, wide(last)), key) {
        return best;
    }
    if best == 0 {
        return i + 1;
    }
    if before(key, piece_at(keys, wide(f[(best - 1) * ENTRY_NUMBERS]))) {
        return i + 1;
    }
    best
}

// The entry with the least key above that of the author last, counted from 1; 0 where none is above.
fn next_entry(keys: &[u8], f: &[u16], last: u16) -> usize
    ensures { (result ≡ next_after keys.now f.now (piece_at keys.now last) (length f.now / entry_width)) × (result ≤ length f.now / entry_width) }
{
    let n = f.len() / ENTRY_NUMBERS;
    let mut best: usize = 0;
    for i in 0..n {
        best = better_entry(keys, f, last, best, i);
    }
    best
}

// 1 for a row, 0 for none.
fn present(row: u16) -> u8
    ensures { result ≡ presence row }
{
    if row == 0 { 0 } else { 1 }
}

// Puts the id of a row; zero bytes for none.
fn put_id(out: &mut [u8], at: usize, ids: &[u8], row: u16)
    requires { (at + chunk_size ≤ length out.old) × (row * chunk_size ≤ length ids.now) }
    ensures { out.new ≡ laid_at out.old at (id_bytes ids.now row) }
{
    if row == 0 {
        let zeros = [0u8; 32];
        copy_at(out, at, &zeros);
        return;
    }
    copy_at(out, at, piece_at(ids, wide(row)));
}

// Puts a phase, and whether there is a last row.
fn put_flags(out: &mut [u8], at: usize, phase: u8, last: u16)
    requires { at + 2 ≤ length out.old }
    ensures { out.new ≡ laid_at out.old at (phase ∷ presence last ∷ []) }
{
    out[at] = phase;
    out[at + 1] = present(last);
}

// Puts phase, presence of last, last id and evidence ids.
fn put_rows(out: &mut [u8], at: usize, ids: &[u8], phase: u8, last: u16, low: u16, high: u16)
    requires { (at + 98 ≤ length out.old) × ((last * chunk_size ≤ length ids.now) × ((low * chunk_size ≤ length ids.now) × (high * chunk_size ≤ length ids.now))) }
    ensures { out.new ≡ laid_at out.old at (rows_bytes ids.now phase last low high) }
{
    put_flags(out, at, phase, last);
    put_id(out, at + 2, ids, last);
    put_id(out, at + 34, ids, low);
    put_id(out, at + 66, ids, high);
}

// Puts an entry.
fn put_entry(out: &mut [u8], at: usize, keys: &[u8], ids: &[u8], k: LogState)
    requires { (at + entry_size ≤ length out.old) × Sendable keys.now ids.now k.author (state_of k) }
    ensures { out.new ≡ laid_at out.old at (sent_bytes (state_sent keys.now ids.now k)) }
{
    copy_at(out, at, piece_at(keys, wide(k.author)));
    let phase = k.phase;
    match phase {
        Phase::Growing => put_rows(out, at + TO_PHASE, ids, 0, k.last, 0, 0),
        Phase::Forked(low, high) => put_rows(out, at + TO_PHASE, ids, 1, k.last, low, high),
    }
}

// Puts the entries of a frontier by rising key.
fn put_entries(keys: &[u8], ids: &[u8], f: &[u16], out: &mut [u8])
    requires { MaySend keys.now ids.now f.now × (entry_place (length f.now / entry_width) ≤ length out.old) }
    ensures { out.new ≡ laid_at out.old at_entries (entries_bytes (send_all keys.now ids.now f.now)) }
{
    let n = f.len() / ENTRY_NUMBERS;
    let mut last: u16 = 0;
    for k in 0..n {
        let next = next_entry(keys, f, last);
        let entry = read_entry(f, next - 1);
        put_entry(out, AT_ENTRIES + ENTRY_SIZE * k, keys, ids, entry);
        last = entry.author;
    }
}

// Puts the item of a frontier at the start of out, for callers that know the frontier and the room.
pub fn put_standing(keys: &[u8], ids: &[u8], f: &[u16], out: &mut [u8])
    requires { MaySend keys.now ids.now f.now × (entry_place (length f.now / entry_width) ≤ length out.old) }
    ensures { out.new ≡ laid_at out.old 0 (item_bytes (send_all keys.now ids.now f.now)) }
{
    let n = f.len() / ENTRY_NUMBERS;
    put32(out, 0, 4 + ENTRY_SIZE * n);
    put16(out, item::AT_KIND, STANDING_KIND);
    put16(out, AT_COUNT, n);
    put_entries(keys, ids, f, out);
}
