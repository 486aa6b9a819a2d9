// Looking back along a log: the dependency of an author, the nearest row that has one, and whether a row is before another.
ghost use Rattle.std.specs.Prelude.{◌≤◌, ◌≡◌};
ghost use Rattle.basics.specs.Decides.{Decides};
ghost use Rattle.store.specs.Table.{deps_in};
ghost use Rattle.packing.specs.Marks.{Falling};
ghost use Rattle.catalogue.specs.Steady.{InLog, SameOrBefore};
ghost use Rattle.catalogue.specs.Nearest.{dep_by, Nearest, MayLook};

use basics::wide;

// A place for none and for each row that a store may hold.
pub const PLACES: usize = 1025;

// The dependencies of a row.
pub fn list_of<'a>(rows: &[u16], deps: &'a [u16], starts: &[usize], row: usize) -> &'a [u16]
    requires { (1 ≤ row) × MayLook rows.now deps.now starts.now row }
    ensures { result.now ≡ deps_in rows.now deps.now row }
{
    let from = starts[row - 1];
    let to = starts[row];
    &deps[from..to]
}

// The dependency of an author in a list, or 0.
pub fn dep_by(rows: &[u16], list: &[u16], author: usize) -> usize
    ensures { result ≡ dep_by rows.now author list.now }
{
    for &named in list {
        let dependency = wide(named);
        let this = store::row_at(rows, dependency);
        if this.author == author {
            return dependency;
        }
    }
    0
}

// The first row from one back that depends on an author, or 0.
pub fn nearest_row(rows: &[u16], deps: &[u16], starts: &[usize], author: usize, row: usize) -> usize
    requires { MayLook rows.now deps.now starts.now row }
    ensures { Nearest rows.now deps.now author row result }
{
    let mut at = row;
    while at != 0 {
        if dep_by(rows, list_of(rows, deps, starts, at), author) != 0 {
            return at;
        }
        let here = store::row_at(rows, at);
        at = here.prev;
    }
    0
}

// Is a row another one, or before it in its log: do previous links lead there?
pub fn climbs_to(rows: &[u16], deps: &[u16], earlier: usize, row: usize) -> bool
    requires { (1 ≤ earlier) × Falling rows.now deps.now row }
    ensures { Decides (InLog rows.now earlier row) result }
{
    let mut at = row;
    while earlier < at {
        let this = store::row_at(rows, at);
        at = this.prev;
    }
    at == earlier
}

// Is a row another one, or did it happen before it? Mostly it is in the other's log; else all that happened before is looked through.
pub fn same_or_before(
    rows: &[u16],
    deps: &[u16],
    starts: &[usize],
    earlier: usize,
    row: usize,
) -> bool
    requires { (1 ≤ earlier) × MayLook rows.now deps.now starts.now row }
    ensures { Decides (SameOrBefore rows.now deps.now earlier row) result }
{
    if row < earlier {
        return false;
    }
    if climbs_to(rows, deps, earlier, row) {
        return true;
    }
    let mut marks = [0u8; PLACES];
    packing::walk::pack_row(rows, deps, starts, &mut marks, row);
    marks[earlier] == 1
}
