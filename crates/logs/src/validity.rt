// Which states are valid.
ghost use Rattle.std.specs.Prelude.{ℕ, List};
ghost use Rattle.basics.specs.Decides.{Decides};
ghost use Rattle.chains.specs.Chain.{RowOf, Node, Evidence};
ghost use Rattle.logs.specs.Held.{chain, Sound};
ghost use Rattle.logs.specs.States.{ChildOf, ValidLog};
ghost use Rattle.logs.specs.Refusals.{OneLog};

use super::evidence::lower;
use super::{LogState, Phase};
use basics::wide;
use store::Store;

// Whether x is one of the first count rows, and the author's.
pub fn is_row(rows: &[u16], count: usize, author: u16, x: u16) -> bool
    ensures { (ids : List ℕ) → Decides (RowOf (chain ids rows.now count) author x) result }
{
    if x == 0 {
        return false;
    }
    let place = wide(x);
    if count < place {
        return false;
    }
    let row = store::row_at(rows, place);
    let who = wide(author);
    row.author == who
}

// Whether a and b are none or rows, and the second is of the first's author.
pub fn in_one_log(rows: &[u16], count: usize, a: u16, b: u16) -> bool
    ensures { (ids : List ℕ) → Decides (OneLog (chain ids rows.now count) a b) result }
{
    let first = wide(a);
    let second = wide(b);
    if count < first {
        return false;
    }
    if count < second {
        return false;
    }
    if a == 0 {
        return true;
    }
    if b == 0 {
        return true;
    }
    let one = store::row_at(rows, first);
    let other = store::row_at(rows, second);
    other.author == one.author
}

// Whether x is none or one of the author's rows.
fn is_none_or_row(rows: &[u16], count: usize, author: u16, x: u16) -> bool
    ensures { (ids : List ℕ) → Decides (Node (chain ids rows.now count) author x) result }
{
    if x == 0 {
        return true;
    }
    is_row(rows, count, author, x)
}

// Whether x is one of the author's rows and stands on last.
fn is_child(rows: &[u16], count: usize, author: u16, last: u16, x: u16) -> bool
    ensures { (ids : List ℕ) → Decides (ChildOf (chain ids rows.now count) author last x) result }
{
    if !is_row(rows, count, author, x) {
        return false;
    }
    let row = store::row_at(rows, wide(x));
    row.prev == wide(last)
}

// Whether low and high are evidence of a fork on last, the lower id first.
fn is_evidence(
    ids: &[u8],
    rows: &[u16],
    count: usize,
    author: u16,
    last: u16,
    low: u16,
    high: u16,
) -> bool
    requires { Sound ids.now rows.now count }
    ensures { Decides (Evidence (chain ids.now rows.now count) author last low high) result }
{
    if !is_child(rows, count, author, last, low) {
        return false;
    }
    if !is_child(rows, count, author, last, high) {
        return false;
    }
    lower(ids, low, high)
}

// Whether the state is valid.
pub fn valid_state(store: &Store, state: LogState) -> bool
    requires { Sound store.now.ids.now store.now.rows.now store.now.counts.rows }
    ensures { Decides (ValidLog store.now.ids.now store.now.rows.now store.now.counts state) result }
{
    let Store {
        ids,
        rows,
        counts,
        ..
    } = *store;
    let author = state.author;
    let last = state.last;
    let count = counts.rows;
    if author == 0 {
        return false;
    }
    if counts.authors < wide(author) {
        return false;
    }
    if !is_none_or_row(rows, count, author, last) {
        return false;
    }
    let phase = state.phase;
    match phase {
        Phase::Growing => true,
        Phase::Forked(low, high) => is_evidence(ids, rows, count, author, last, low, high),
    }
}
