// The walk back from a row: a row function and a dependency-list function that call each other, the row number falling.
ghost use Rattle.std.specs.Prelude.{◌-◌, ◌≤◌};
ghost use Rattle.store.specs.Table.{dep_sum};
ghost use Rattle.packing.specs.Before.{Within};
ghost use Rattle.packing.specs.Marks.{Listed, Marking, MayWalk};

// Marks a row and all that happened before it. The row itself is marked last: so at every call the marked rows hold, with
// a row, all that happened before it, and a row that is marked already needs no second walk.
#[cycle(pack_list_pack_row)]
pub fn pack_row(rows: &[u16], deps: &[u16], starts: &[usize], marks: &mut [u8], row: usize)
    requires { MayWalk rows.now deps.now starts.now marks.old row }
    ensures { Marking marks.old marks.new (Within rows.now deps.now row) }
{
    if row == 0 {
        return;
    }
    if marks[row] == 1 {
        return;
    }
    let this = store::row_at(rows, row);
    let prev = this.prev;
    pack_row(rows, deps, starts, marks, prev);
    pack_list(rows, deps, starts, marks, row);
    marks[row] = 1;
}

// Marks the dependencies of a row and all that happened before them.
#[cycle(pack_list_pack_row)]
pub fn pack_list(rows: &[u16], deps: &[u16], starts: &[usize], marks: &mut [u8], row: usize)
    requires { (1 ≤ row) × MayWalk rows.now deps.now starts.now marks.old row }
    ensures { Marking marks.old marks.new (Listed rows.now deps.now (dep_sum rows.now (row - 1)) (dep_sum rows.now row)) }
{
    for place in starts[row - 1]..starts[row] {
        pack_row(rows, deps, starts, marks, basics::wide(deps[place]));
    }
}
