// One item judged against the store, its line printed, and its row appended to its author's entry.
ghost use Rattle.std.specs.Prelude.{IfOk, OnErr};
ghost use Rattle.morning.specs.Intake.{kept_by};
ghost use Rattle.intake.specs.Judging.{InOrder, MayAppend, MayEnter, EnteredTo, JudgedAndEntered, Untold};
ghost use Rattle.frontiers.specs.Appending.{AppendsTo};
ghost use Rattle.store.specs.Clauses.{SameParts};

use crate::report::{LINE_ROOM, item_line};
use admission::{Admitted, answer_number, answer_row};
use frontiers::appending::append_row;
use origins::entering::admit_sound;
use std::io;
use store::{Store, StoreMut};

// The origin of every row: the program gives 0.
const ORIGIN: u8 = 0;

// Appends a row to its author's entry; how many numbers the frontier has then. The callers show that no refusal is possible, so the
// way out of the `else` is never taken.
fn append(store: &Store, frontier: &mut [u16], used: usize, row: u16) -> usize
    requires { MayAppend store.now.ids.now store.now.rows.now store.now.counts frontier.old used row }
    ensures { AppendsTo store.now.ids.now store.now.rows.now store.now.counts frontier.old used row frontier.new (Ok result) }
{
    let answer = append_row(store, frontier, used, row);
    let Ok(now) = answer else {
        return used;
    };
    now
}

// Appends an admitted row to its author's entry; how many numbers the frontier has then.
fn enter(store: &Store, frontier: &mut [u16], used: usize, answer: Admitted) -> usize
    requires { MayEnter store.now.ids.now store.now.rows.now store.now.counts frontier.old used answer }
    ensures { EnteredTo store.now.ids.now store.now.rows.now store.now.counts frontier.old used answer frontier.new result }
{
    match answer {
        Admitted::Done(row) => append(store, frontier, used, row),
        Admitted::Held(_) => used,
        Admitted::Refused(_) => used,
    }
}

// Prints the line of an item. Its one error is that of the printing.
fn print_item(rt: &impl Print, number: u64, answer: Admitted) -> io::Result<()> {
    let mut line = [0u8; LINE_ROOM];
    let end = item_line(&mut line, number, answer_number(answer), answer_row(answer));
    lines::print(rt, &mut line, end)
}

// Judges one item, keeps its author's entry, and prints its line; how many numbers the frontier has then. Neither the store nor the
// frontier is checked: both are as they should be. Its one error is that of the printing, which comes last.
pub fn judge(
    rt: &impl Print,
    item: &[u8],
    number: u64,
    store: &mut StoreMut,
    origins: &mut [u8],
    frontier: &mut [u16],
    used: usize,
) -> io::Result<usize>
    requires { InOrder (kept_by store.old origins.old) frontier.old used }
    ensures same { SameParts store.old store.new }
    ensures ok { IfOk result (λ n. JudgedAndEntered
        (kept_by store.old origins.old)
        item.now frontier.old used
        (kept_by store.new origins.new)
        frontier.new n) }
    ensures err { OnErr result (Untold (λ n. JudgedAndEntered
        (kept_by store.old origins.old)
        item.now frontier.old used
        (kept_by store.new origins.new)
        frontier.new n)) }
{
    let answer = admit_sound(item, ORIGIN, store, origins);
    let now = enter(&store.read(), frontier, used, answer);
    print_item(rt, number, answer)?;
    Ok(now)
}
