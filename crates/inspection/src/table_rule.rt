// The groups of clauses of the store's rule.
ghost use Rattle.basics.specs.Decides.{Decides};
ghost use Rattle.std.specs.Prelude.{◌≤◌, length};
ghost use Rattle.store.specs.Table.{dep_sum};
ghost use Rattle.store.specs.Clauses.{table_in, CountsFit, RowsFit};

use crate::dep_rules::rows_depend;
use crate::row_rules::{authors_appear, rows_chained};
use chunks::PIECE;
use store::branches::rows_held;
use store::{AUTHOR_LIMIT, DEP_LIMIT, ROW_LIMIT, ROW_NUMBERS, Store};

// Whether the counts keep the limits and fit the lent parts.
pub fn counts_fit(store: &Store) -> bool
    ensures { Decides (CountsFit (table_in store.now)) result }
{
    let Store {
        keys,
        ids,
        rows,
        deps,
        branches,
        counts,
    } = *store;
    if ROW_LIMIT < counts.rows {
        return false;
    }
    if AUTHOR_LIMIT < counts.authors {
        return false;
    }
    if DEP_LIMIT < counts.deps {
        return false;
    }
    if rows.len() < counts.rows * ROW_NUMBERS {
        return false;
    }
    if ids.len() < counts.rows * PIECE {
        return false;
    }
    if keys.len() < counts.authors * PIECE {
        return false;
    }
    if deps.len() < counts.deps {
        return false;
    }
    if branches.len() < counts.authors {
        return false;
    }
    counts.rows <= rows_held(branches)
}

// Whether the first n rows, with so many authors, keep the rules of a row.
pub fn rows_fit(rows: &[u16], deps: &[u16], n: usize, authors: usize) -> bool
    requires { dep_sum rows.now n ≤ length deps.now }
    ensures { Decides (RowsFit rows.now deps.now n authors) result }
{
    authors_appear(rows, n, authors) && rows_chained(rows, n) && rows_depend(rows, deps, n)
}
