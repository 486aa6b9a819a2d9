// Packs two stores of 1,024 rows that try the walk back: a ladder, two authors that depend on each other at every step, on which a
// walk without marks would not end; and the deepest walk, where each row leads to the row before it by its dependency list alone.
// Writes a line for each: how many numbers were written, and what the output's numbers add up to.
// An error is that of the printing, and ends main.
#![tactic(auto)]

use answers::Refusal;
use std::io;
use store::branches::ROW_BRANCHES;
use store::{Counts, StoreMut};

// Puts a number or a byte where there is a place for it.
fn put<T: Copy>(s: &mut [T], at: usize, x: T) {
    if at < s.len() {
        s[at] = x;
    }
}

// The row after the first `before` rows: the two authors take turns, and each row but the first depends on the row before it.
// In the ladder it follows its author's last row; in the deep store it is one more first message of its author.
fn put_row(rows: &mut [u16], before: u16, ladder: bool) {
    let at = basics::wide(before) * store::ROW_NUMBERS;
    put(rows, at, 1 + before % 2);
    put(rows, at + 1, previous(before, ladder));
    put(rows, at + 2, if ladder { 1 + before / 2 } else { 1 });
    put(rows, at + 3, before.min(1));
}

// The previous row of the row after the first `before` rows.
fn previous(before: u16, ladder: bool) -> u16 {
    if ladder { before.saturating_sub(1) } else { 0 }
}

// The id of the row after the first `before` rows: it begins with their number.
fn put_id(ids: &mut [u8], before: u16) {
    let at = basics::wide(before) * chunks::PIECE;
    put(ids, at, (before % 256) as u8);
    put(ids, at + 1, (before / 256) as u8);
}

// All rows, their dependencies and ids.
fn build(store: &mut StoreMut, ladder: bool) {
    for before in 0..1024 {
        put_row(store.rows, before, ladder);
        put(store.deps, basics::wide(before), before + 1);
        put_id(store.ids, before);
    }
}

// How many rows follow the row after the first `before` rows.
fn followers(before: u16, ladder: bool) -> u16 {
    u16::from(ladder && before < 1022)
}

// The branch counts: the first messages of the two authors, and the rows that follow each row.
fn count(branches: &mut [u16], ladder: bool) {
    let firsts: u16 = if ladder { 1 } else { 512 };
    put(branches, 0, firsts);
    put(branches, 1, firsts);
    for before in 0..1024 {
        put(
            branches,
            ROW_BRANCHES + basics::wide(before),
            followers(before, ladder),
        );
    }
}

// What the first 1,024 numbers add up to.
fn sum(s: &[u16]) -> usize {
    let mut total = 0;
    for x in &s[..s.len().min(1024)] {
        total += basics::wide(*x);
    }
    total
}

// The line of an answer.
fn show(rt: &impl Print, answer: Result<usize, Refusal>, out: &[u16]) -> io::Result<()> {
    match answer {
        Ok(n) => {
            let total = sum(out);
            println!(rt; "{n} {total}")
        }
        Err(why) => {
            let number = answers::number(why);
            println!(rt; "refused {number}")
        }
    }
}

// Packs one of the two stores from the row 1,024 of author 2.
fn pack(rt: &impl Print, store: &mut StoreMut, out: &mut [u16], ladder: bool) -> io::Result<()> {
    build(store, ladder);
    count(store.branches, ladder);
    let frontier: [u16; 5] = [2, 0, 1024, 0, 0];
    let answer = packing::packing_list(&store.read(), &frontier, out);
    show(rt, answer, out)
}

fn main(rt: HostRuntime) -> io::Result<()> {
    let mut keys = [0u8; 64];
    keys[32] = 1;
    let mut ids = [0u8; 32768];
    let mut rows = [0u16; 4096];
    let mut deps = [0u16; 1024];
    let mut branches = [0u16; 1088];
    let mut out = [0u16; 1024];
    let mut store = StoreMut {
        keys: &mut keys,
        ids: &mut ids,
        rows: &mut rows,
        deps: &mut deps,
        branches: &mut branches,
        counts: Counts {
            rows: 1024,
            authors: 2,
            deps: 1023,
        },
    };
    pack(&rt, &mut store, &mut out, true)?;
    pack(&rt, &mut store, &mut out, false)
}
