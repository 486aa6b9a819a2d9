// Climbing along the previous links of one author's chain.
ghost use Rattle.std.specs.Prelude.{◌≡◌};
ghost use Rattle.store.specs.Table.{row_at};
ghost use Rattle.logs.specs.Held.{Linked, Climbed};

use super::Nearest;
use basics::wide;

// How deep row r stands: 0 for none.
pub fn index_of(rows: &[u16], r: u16) -> usize
    ensures { result ≡ (row_at rows.now r).index }
{
    let row = store::row_at(rows, wide(r));
    row.index
}

// The previous row of row r, or none.
pub fn prev_of(rows: &[u16], r: u16) -> u16
    requires { Linked rows.now r }
    ensures { result ≡ (row_at rows.now r).prev }
{
    let row = store::row_at(rows, wide(r));
    row.prev as u16
}

// The prefix of rows a and b, none included: the deeper side climbs until both stand on one place. The last row that a side left is
// the child toward it.
pub fn climb(rows: &[u16], a: u16, b: u16) -> Nearest
    requires { Linked rows.now a × Linked rows.now b }
    ensures { Climbed rows.now a b result }
{
    let mut first = a;
    let mut second = b;
    let mut left_first = 0;
    let mut left_second = 0;
    let row = loop {
        if first == second {
            break first;
        }
        if index_of(rows, first) < index_of(rows, second) {
            left_second = second;
            second = prev_of(rows, second);
        } else {
            left_first = first;
            first = prev_of(rows, first);
        }
    };
    Nearest {
        row,
        first: left_first,
        second: left_second,
    }
}
