// Document 01's sample chain, what is only run: three forked states that are not valid, beside one that is, and two packing lists.
// An error is that of the printing, and ends main.
#![tactic(auto)]

use answers::Refusal;
use logs::{LogState, Phase};
use std::io;
use store::{Counts, Store};

// How much the sample chain has: ten rows of two authors, and one dependency.
const SAMPLE: Counts = Counts {
    rows: 10,
    authors: 2,
    deps: 1,
};

// The answer's number: 0 where there is a state.
fn answer_of(merged: Result<LogState, Refusal>) -> u16 {
    match merged {
        Ok(_) => 0,
        Err(r) => answers::number(r),
    }
}

// Prints a name, and what the merge of A's forked state with itself answers.
fn state_line(
    rt: &impl Print,
    name: &[u8],
    store: &Store,
    last: u16,
    low: u16,
    high: u16,
) -> io::Result<()> {
    let state = LogState {
        author: 1,
        last,
        phase: Phase::Forked(low, high),
    };
    let answer = answer_of(logs::merge(store, state, state));
    let mut line = [0u8; 64];
    let a = lines::put(&mut line, 0, name);
    let b = lines::put_number(&mut line, a, answer);
    lines::print(rt, &mut line, b)
}

// Prints a name, and the first n numbers of a list, on one line.
fn list_line(rt: &impl Print, name: &[u8], list: &[u16], n: usize) -> io::Result<()> {
    let mut line = [0u8; 128];
    let mut end = lines::put(&mut line, 0, name);
    for x in &list[..n.min(list.len())] {
        end = lines::put_number(&mut line, end, *x);
    }
    lines::print(rt, &mut line, end)
}

// Prints a name, and the packing list of a frontier.
fn packing_line(rt: &impl Print, name: &[u8], store: &Store, frontier: &[u16]) -> io::Result<()> {
    let mut list = [0u16; 10];
    let packed = packing::packing_list(store, frontier, &mut list);
    match packed {
        Ok(n) => list_line(rt, name, &list, n),
        Err(r) => list_line(rt, name, &[answers::number(r)], 1),
    }
}

// All lines over the sample chain.
fn sample(rt: &impl Print, store: &Store) -> io::Result<()> {
    state_line(rt, b"A F(2;3,4)", store, 2, 3, 4)?;
    state_line(rt, b"A F(2;4,3)", store, 2, 4, 3)?;
    state_line(rt, b"A F(2;3,3)", store, 2, 3, 3)?;
    state_line(rt, b"A F(1;3,4)", store, 1, 3, 4)?;
    packing_line(rt, b"A F(2;3,4) packs", store, &[1, 1, 2, 3, 4])?;
    packing_line(rt, b"B G8 packs", store, &[2, 0, 8, 0, 0])
}

// The first byte of row n's id, in the document's order; the rest is zero.
fn set_first_bytes(ids: &mut [u8; 320]) {
    ids[0] = 7;
    ids[32] = 5;
    ids[64] = 2;
    ids[96] = 3;
    ids[128] = 9;
    ids[160] = 4;
    ids[192] = 6;
    ids[224] = 10;
    ids[256] = 1;
    ids[288] = 8;
}

// How many first messages A and B have, and how many rows follow the rows 1, 2, 4 and 5; none follows another.
fn set_branches(branches: &mut [u16; 74]) {
    branches[0] = 2;
    branches[1] = 1;
    branches[64] = 2;
    branches[65] = 3;
    branches[67] = 1;
    branches[68] = 1;
}

fn main(rt: HostRuntime) -> io::Result<()> {
    let mut keys = [0u8; 64];
    keys[0] = 65;
    keys[32] = 66;
    let mut ids = [0u8; 320];
    set_first_bytes(&mut ids);
    // Each row: author, previous row, index, number of dependencies.
    let rows = [
        1u16, 0, 1, 0, 1, 1, 2, 0, 1, 2, 3, 0, 1, 2, 3, 0, 2, 0, 1, 1, 1, 4, 4, 0, 1, 1, 2, 0, 2,
        5, 2, 0, 1, 2, 3, 0, 1, 0, 1, 0,
    ];
    let deps = [3u16];
    let mut branches = [0u16; 74];
    set_branches(&mut branches);
    let store = Store::new(&keys, &ids, &rows, &deps, &branches, SAMPLE);
    sample(&rt, &store)
}
