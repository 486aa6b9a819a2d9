// The rules 6 to 16 on an item whose layout is sound, by number. Nothing is written here.
ghost use Rattle.std.specs.Prelude.{◌≡◌, List, ℕ, ◌<◌, ◌≤◌};
ghost use Rattle.chunks.specs.Lookup.{place_of};
ghost use Rattle.item.specs.Id.{id_of};
ghost use Rattle.item.specs.Layout.{layout_of, key_of, previous_of};
ghost use Rattle.store.specs.Limits.{row_limit, author_limit, row_dep_limit};
ghost use Rattle.store.specs.Table.{WellFormed};
ghost use Rattle.store.specs.Clauses.{table_in, table_of};
ghost use Rattle.judging.specs.Message.{or_next};
ghost use Rattle.judging.specs.Verdict.{step_tests, prev_tests, index_tests, chain_tests, rules_of, judged_of};

use crate::Verdict;
use crate::deps::judge_deps;
use crate::room::is_full;
use answers::Refusal;
use item::Fields;
use store::{Row, Store};

// The author number that the item's key has or, where the key is new, gets.
fn author_of(item: &[u8], keys: &[u8], authors: usize) -> usize
    requires { authors ≤ author_limit }
    ensures { result ≡ or_next authors (place_of keys.now authors (key_of item.now)) }
{
    store::find_key(keys, authors, item::key_of(item)).unwrap_or(authors + 1)
}

// 11 and 12, for an index above 1 and a previous row p with these numbers.
fn judge_step(prev: Row, author: usize, f: Fields, p: usize) -> Verdict
    requires { 1 < f.index }
    ensures { result ≡ step_tests prev author f p }
{
    if prev.author != author {
        return Verdict::Breaks(Refusal::Owner);
    }
    if prev.index != f.index - 1 {
        return Verdict::Breaks(Refusal::Step);
    }
    Verdict::Fits(Row {
        author,
        prev: p,
        index: f.index,
        deps: f.count,
    })
}

// 10 to 12, for an index above 1.
fn judge_prev(item: &[u8], f: Fields, ids: &[u8], rows: &[u16], n: usize, author: usize) -> Verdict
    requires { 1 < f.index }
    ensures { result ≡ prev_tests rows.now author f (place_of ids.now n (previous_of item.now)) }
{
    let Some(p) = store::find_id(ids, n, item::previous_of(item)) else {
        return Verdict::Breaks(Refusal::Prev);
    };
    judge_step(store::row_at(rows, p), author, f, p)
}

// 9 to 12.
fn judge_index(item: &[u8], f: Fields, ids: &[u8], rows: &[u16], n: usize, author: usize) -> Verdict
    ensures { result ≡ index_tests ids.now rows.now n author (previous_of item.now) f }
{
    let index = f.index;
    if index == 0 {
        return Verdict::Breaks(Refusal::Index);
    }
    if 1 < index {
        return judge_prev(item, f, ids, rows, n, author);
    }
    if chunks::is_zero(item::previous_of(item)) {
        return Verdict::Fits(Row {
            author,
            prev: 0,
            index,
            deps: f.count,
        });
    }
    Verdict::Breaks(Refusal::Index)
}

// 6 to 12, of an item with this id. The store's dependencies play no part.
fn judge_chain(item: &[u8], f: Fields, id: &[u8], store: &Store) -> Verdict
    requires { (id.now ≡ id_of item.now) × (store.now.counts.authors ≤ author_limit) }
    ensures { (d b : List ℕ) → result ≡ chain_tests (table_of store.now.keys.now store.now.ids.now store.now.rows.now d b store.now.counts) item.now f }
{
    let Store {
        keys,
        ids,
        rows,
        counts,
        ..
    } = *store;
    let mark = f.mark;
    if 1 < mark {
        return Verdict::Breaks(Refusal::Flag);
    }
    if mark == 0 {
        return Verdict::Breaks(Refusal::Sign);
    }
    let n = counts.rows;
    if let Some(r) = store::find_id(ids, n, id) {
        return Verdict::Holds(r);
    }
    judge_index(item, f, ids, rows, n, author_of(item, keys, counts.authors))
}

// 6 to 15, of an item with this id.
pub fn judge_rules(item: &[u8], f: Fields, id: &[u8], store: &Store) -> Verdict
    requires { (id.now ≡ id_of item.now) × ((f.count ≤ row_dep_limit) × ((store.now.counts.rows ≤ row_limit) × (store.now.counts.authors ≤ author_limit))) }
    ensures { (d b : List ℕ) → result ≡ rules_of (table_of store.now.keys.now store.now.ids.now store.now.rows.now d b store.now.counts) item.now f }
{
    let Store {
        ids,
        rows,
        counts,
        ..
    } = *store;
    let chain = judge_chain(item, f, id, store);
    match chain {
        Verdict::Fits(row) => {
            let n = counts.rows;
            judge_deps(item, f, row, ids, rows, n)
        }
        Verdict::Holds(r) => Verdict::Holds(r),
        Verdict::Breaks(r) => Verdict::Breaks(r),
    }
}

// 6 to 16, of an item with these fields and this id.
pub fn judge(item: &[u8], f: Fields, id: &[u8], store: &Store) -> Verdict
    requires { (id.now ≡ id_of item.now) × ((layout_of item.now ≡ Ok f) × WellFormed (table_in store.now)) }
    ensures { result ≡ judged_of (table_in store.now) item.now f }
{
    let ruled = judge_rules(item, f, id, store);
    match ruled {
        Verdict::Fits(row) => {
            if is_full(store, row) {
                return Verdict::Breaks(Refusal::Full);
            }
            Verdict::Fits(row)
        }
        Verdict::Holds(r) => Verdict::Holds(r),
        Verdict::Breaks(r) => Verdict::Breaks(r),
    }
}
