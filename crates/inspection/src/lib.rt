// The inspection of a store: the decision whether the lent tables are well formed, clause by clause.
#![tactic(auto)]

ghost use Rattle.basics.specs.Decides.{Decides};
ghost use Rattle.store.specs.Table.{WellFormed};
ghost use Rattle.store.specs.Clauses.{table_in};

use branch_rule::branches_fit;
use dep_rules::deps_add_up;
use store::Store;
use table_rule::{counts_fit, rows_fit};

mod branch_rule;
mod dep_rules;
mod row_rules;
mod table_rule;

// Whether the lent parts, with the counts, are a well_formed store.
pub fn well_formed(store: &Store) -> bool
    ensures { Decides (WellFormed (table_in store.now)) result }
{
    let Store {
        keys,
        ids,
        rows,
        deps,
        branches,
        counts,
    } = *store;
    if !counts_fit(store) {
        return false;
    }
    if !deps_add_up(rows, counts.rows, counts.deps) {
        return false;
    }
    if !chunks::distinct(keys, counts.authors) {
        return false;
    }
    if !chunks::distinct(ids, counts.rows) {
        return false;
    }
    if !branches_fit(rows, branches, counts.rows, counts.authors) {
        return false;
    }
    rows_fit(rows, deps, counts.rows, counts.authors)
}
