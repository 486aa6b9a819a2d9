// Document 01's limits, which are only run: what admitting the last that fits answers, and one more. An error is that of the printing, and
// ends main.
#![tactic(auto)]

ghost use Rattle.std.specs.Prelude.{◌≤◌, ◌<◌};

use std::io;
use store::{Counts, StoreMut};

mod message;

// How many origins are lent: one for each row that a store may have.
const ORIGINS: usize = 1024;

// How much of an empty store is in use.
const EMPTY: Counts = Counts {
    rows: 0,
    authors: 0,
    deps: 0,
};

// Admits one message; the number of the answer. Its origin is 0, and so are all that are lent: each row's is.
fn admit(
    item: &mut [u8],
    store: &mut StoreMut,
    author: usize,
    previous: usize,
    index: usize,
    payload: usize,
    count: usize,
) -> u16
    requires { (payload < 4900) × (count < 100) }
{
    let size = message::lay(item, store.ids, author, previous, index, payload, count);
    let mut origins = [0u8; ORIGINS];
    let answer = origins::admit(&item[0..size], 0, store, &mut origins);
    admission::answer_number(answer)
}

// Admits the message of author 64 that follows the row `previous`, with so many dependencies; the number of the answer.
fn go_on(item: &mut [u8], store: &mut StoreMut, previous: usize, count: usize) -> u16
    requires { ((64 ≤ previous) × (previous ≤ 1024)) × (count < 100) }
{
    admit(item, store, 64, previous, previous - 62, 0, count)
}

// Prints a name, the answer to the last that fits, and the answer to one more.
fn limit_line(rt: &impl Print, name: &[u8], last: u16, more: u16) -> io::Result<()> {
    let mut line = [0u8; 64];
    let a = lines::put(&mut line, 0, name);
    let b = lines::put_number(&mut line, a, last);
    let c = lines::put_number(&mut line, b, more);
    lines::print(rt, &mut line, c)
}

// A chain of one author in an empty store, up to row 1,024, and one more, which is refused.
fn rows_limit(rt: &impl Print, item: &mut [u8], store: &mut StoreMut) -> io::Result<()> {
    store.counts = EMPTY;
    let mut last = 0;
    let mut more = 0;
    for n in 0..1025 {
        last = more;
        more = admit(item, store, 1, n, n + 1, 0, 0);
    }
    limit_line(rt, b"row 1024", last, more)
}

// The first messages of 64 authors in an empty store, and one more, which is refused. The 64 are in the store then.
fn authors_limit(rt: &impl Print, item: &mut [u8], store: &mut StoreMut) -> io::Result<()> {
    store.counts = EMPTY;
    let mut last = 0;
    let mut more = 0;
    for n in 1..=65 {
        last = more;
        more = admit(item, store, n, 0, 1, 0, 0);
    }
    limit_line(rt, b"author 64", last, more)
}

// On the store of 64 first messages: author 64 goes on with 63 dependencies, and one more is refused.
fn dependencies_limit(rt: &impl Print, item: &mut [u8], store: &mut StoreMut) -> io::Result<()> {
    let last = go_on(item, store, 64, 63);
    let more = go_on(item, store, 65, 64);
    limit_line(rt, b"dependencies 63", last, more)
}

// On that store: author 64 goes on with 64 messages more of 63 dependencies each.
fn fill_dependencies(item: &mut [u8], store: &mut StoreMut) {
    for previous in 65..=128 {
        go_on(item, store, previous, 63);
    }
}

// On that store: the dependency at place 4,096, and one more.
fn dependency_place_limit(
    rt: &impl Print,
    item: &mut [u8],
    store: &mut StoreMut,
) -> io::Result<()> {
    let last = go_on(item, store, 129, 1);
    let more = go_on(item, store, 130, 1);
    limit_line(rt, b"dependency at place 4096", last, more)
}

// A payload of 4,096 bytes in an empty store, and one more.
fn payload_limit(rt: &impl Print, item: &mut [u8], store: &mut StoreMut) -> io::Result<()> {
    store.counts = EMPTY;
    let last = admit(item, store, 1, 0, 1, 4096, 0);
    let more = admit(item, store, 1, 1, 2, 4097, 0);
    limit_line(rt, b"payload 4096", last, more)
}

// All limits, the rows', the authors' and the payload's each from an empty store on.
fn all_limits(rt: &impl Print, item: &mut [u8], store: &mut StoreMut) -> io::Result<()> {
    rows_limit(rt, item, store)?;
    authors_limit(rt, item, store)?;
    dependencies_limit(rt, item, store)?;
    fill_dependencies(item, store);
    dependency_place_limit(rt, item, store)?;
    payload_limit(rt, item, store)
}

// All limits, over memory of the sizes that document 01 names.
fn main(rt: HostRuntime) -> io::Result<()> {
    let mut item = [0u8; 8192];
    let mut keys = [0u8; 2048];
    let mut ids = [0u8; 32768];
    let mut rows = [0u16; 4096];
    let mut deps = [0u16; 4096];
    let mut branches = [0u16; 1088];
    let mut store = StoreMut {
        keys: &mut keys,
        ids: &mut ids,
        rows: &mut rows,
        deps: &mut deps,
        branches: &mut branches,
        counts: EMPTY,
    };
    all_limits(&rt, &mut item, &mut store)
}
