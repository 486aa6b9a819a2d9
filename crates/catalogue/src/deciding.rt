// Which row a message breaks M7 against, and the lowest row of a store that breaks it.
ghost use Rattle.std.specs.Prelude.{[], ◌∷◌, ◌≡◌};
ghost use Rattle.basics.specs.Decides.{Decides};
ghost use Rattle.catalogue.specs.Steady.{KeepsFrom};
ghost use Rattle.catalogue.specs.Nearest.{Latest, Steps, MayLook, MayJudge, MayJudgeAll};
ghost use Rattle.catalogue.specs.Calls.{MaySearch, MayAsk};

use super::looking::{PLACES, dep_by, list_of, nearest_row, same_or_before};
use basics::{narrow, wide};
use packing::marking::fill_starts;

// The lowest row that breaks M7 and the latest earlier row that it breaks it against, or 0 and 0. The zeros are no Option:
// `backstep` promises them (`NamesBackstep`), so None would be turned into them again.
#[derive(Clone, Copy)]
pub struct Backstep {
    pub row: u16,
    pub earlier: u16,
}

// The latest row against which a message on a row breaks M7 by one dependency, or 0: the nearest row that depends on its author decides.
pub fn break_by(rows: &[u16], deps: &[u16], starts: &[usize], on: usize, dependency: usize) -> usize
    requires { MayJudge rows.now deps.now starts.now on dependency }
    ensures { Latest rows.now deps.now on (dependency ∷ []) result }
{
    let this = store::row_at(rows, dependency);
    let author = this.author;
    let nearest = nearest_row(rows, deps, starts, author, on);
    if nearest == 0 {
        return 0;
    }
    let earlier = dep_by(rows, list_of(rows, deps, starts, nearest), author);
    if same_or_before(rows, deps, starts, earlier, dependency) {
        return 0;
    }
    nearest
}

// The latest row against which a message on a row breaks M7 by one of its dependencies, or 0.
pub fn latest_break(
    rows: &[u16],
    deps: &[u16],
    starts: &[usize],
    on: usize,
    list: &[u16],
    count: usize,
) -> usize
    requires { MayJudgeAll rows.now deps.now starts.now count on list.now }
    ensures { Latest rows.now deps.now on list.now result }
{
    let mut latest: usize = 0;
    for &named in list {
        let found = break_by(rows, deps, starts, on, wide(named));
        latest = latest.max(found);
    }
    latest
}

// The lowest of the first rows that breaks M7, and the latest row that it breaks it against.
pub fn lowest_break(rows: &[u16], deps: &[u16], starts: &[usize], count: usize) -> Backstep
    requires { MayLook rows.now deps.now starts.now count }
    ensures { Steps rows.now deps.now count result.row result.earlier }
{
    for row in 1..=count {
        let this = store::row_at(rows, row);
        let on = this.prev;
        let earlier = latest_break(
            rows,
            deps,
            starts,
            on,
            list_of(rows, deps, starts, row),
            count,
        );
        if earlier != 0 {
            return Backstep {
                row: narrow(row),
                earlier: narrow(earlier),
            };
        }
    }
    Backstep { row: 0, earlier: 0 }
}

// The same, of a store whose table of starts is not yet filled.
pub fn find_backstep(rows: &[u16], deps: &[u16], count: usize) -> Backstep
    requires { MaySearch rows.now deps.now count }
    ensures { Steps rows.now deps.now count result.row result.earlier }
{
    let mut starts = [0usize; PLACES];
    fill_starts(rows, count, &mut starts);
    lowest_break(rows, deps, &starts, count)
}

// Whether a message on a row that depends on some rows of a store keeps M7.
pub fn keeps_from(rows: &[u16], deps: &[u16], count: usize, on: usize, list: &[u16]) -> bool
    requires { MayAsk rows.now deps.now count on list.now }
    ensures { Decides (KeepsFrom rows.now deps.now on list.now) result }
{
    let mut starts = [0usize; PLACES];
    fill_starts(rows, count, &mut starts);
    latest_break(rows, deps, &starts, on, list, count) == 0
}
