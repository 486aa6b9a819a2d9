// Marking what a frontier packs.
ghost use Rattle.std.specs.Prelude.{ℕ, ◌<◌, ◌/◌, ◌^◌, length};
ghost use Rattle.store.specs.Table.{dep_sum};
ghost use Rattle.packing.specs.Marks.{Blank, Marking, Starts};
ghost use Rattle.packing.specs.Packing.{RootsWalk, PacksEntry, Packs, MayPack};
ghost use Rattle.frontiers.specs.Numbers.{entry_width, state_at};

use super::PLACES;
use super::walk::pack_row;
use basics::wide;
use frontiers::ENTRY_NUMBERS;

// Fills the table of starts: for none and each row up to count, how many dependencies stand up to it.
pub fn fill_starts(rows: &[u16], count: usize, starts: &mut [usize])
    requires { (count < length starts.old) × (dep_sum rows.now count < 2 ^ 63) }
    ensures { Starts rows.now starts.new count }
{
    let mut sum = 0;
    starts[0] = 0;
    for row in 1..=count {
        let this = store::row_at(rows, row);
        sum += this.deps;
        starts[row] = sum;
    }
}

// Marks the roots of an entry, its last row and where it is forked both evidence rows, and all that happened before any of them.
fn mark_entry(
    rows: &[u16],
    deps: &[u16],
    starts: &[usize],
    marks: &mut [u8],
    frontier: &[u16],
    entry: usize,
)
    requires { (entry < length frontier.now / entry_width) × RootsWalk rows.now deps.now starts.now marks.old (state_at frontier.now entry) }
    ensures { Marking marks.old marks.new (PacksEntry rows.now deps.now frontier.now entry) }
{
    let at = entry * ENTRY_NUMBERS;
    pack_row(rows, deps, starts, marks, wide(frontier[at + 2]));
    if frontier[at + 1] == 0 {
        return;
    }
    pack_row(rows, deps, starts, marks, wide(frontier[at + 3]));
    pack_row(rows, deps, starts, marks, wide(frontier[at + 4]));
}

// Marks, for each entry of the frontier, its roots and all that happened before any of them.
fn mark_entries(rows: &[u16], deps: &[u16], starts: &[usize], marks: &mut [u8], frontier: &[u16])
    requires { (k : ℕ) → k < length frontier.now / entry_width → RootsWalk rows.now deps.now starts.now marks.old (state_at frontier.now k) }
    ensures { Marking marks.old marks.new (Packs rows.now deps.now frontier.now) }
{
    for entry in 0..frontier.len() / ENTRY_NUMBERS {
        mark_entry(rows, deps, starts, marks, frontier, entry);
    }
}

// Marks what a frontier packs.
pub fn mark_frontier(rows: &[u16], deps: &[u16], count: usize, frontier: &[u16], marks: &mut [u8])
    requires { MayPack rows.now deps.now count frontier.now × (Blank marks.old × (count < length marks.old)) }
    ensures { Marking marks.old marks.new (Packs rows.now deps.now frontier.now) }
{
    let mut starts = [0usize; PLACES];
    fill_starts(rows, count, &mut starts);
    mark_entries(rows, deps, &starts, marks, frontier);
}
