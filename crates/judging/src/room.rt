// The rule 16: whether the store has room for a row.
ghost use Rattle.std.specs.Prelude.{◌≡◌, ◌≤◌, length};
ghost use Rattle.store.specs.Limits.{dep_limit};
ghost use Rattle.store.specs.Clauses.{table_in};
ghost use Rattle.judging.specs.Verdict.{full};

use chunks::PIECE;
use store::branches::rows_held;
use store::{ROW_NUMBERS, Row, Store};

// 16: no free row, no place for a new author, or too few dependency places.
pub fn is_full(store: &Store, row: Row) -> bool
    requires { (store.now.counts.deps ≤ dep_limit) × (store.now.counts.deps ≤ length store.now.deps.now) }
    ensures { result ≡ full (table_in store.now) row }
{
    let Store {
        keys,
        ids,
        rows,
        deps,
        branches,
        counts,
    } = *store;
    let row_room = store::ROW_LIMIT
        .min(rows_held(branches))
        .min(ids.len() / PIECE)
        .min(rows.len() / ROW_NUMBERS);
    if row_room <= counts.rows {
        return true;
    }
    let dep_room = store::DEP_LIMIT.min(deps.len());
    if dep_room - counts.deps < row.deps {
        return true;
    }
    let author_room = store::AUTHOR_LIMIT
        .min(branches.len())
        .min(keys.len() / PIECE);
    counts.authors < row.author && author_room <= counts.authors
}
