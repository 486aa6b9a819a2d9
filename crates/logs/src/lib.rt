// Calls on log states: the prefix of two rows, and append, merge and order of states.
// Each takes the lent store first, checks it, and refuses by a number of document 01.
#![tactic(auto)]

ghost use Rattle.store.specs.Clauses.{table_in};
ghost use Rattle.logs.specs.Calls.{Prefixes, Appends, Merges, ComparesStates};

use adding::add_row;
use answers::Refusal;
use checking::check_pair;
use climbing::climb;
use inspection::well_formed;
use merging::merge_states;
use ordering::below_states;
use store::Store;
use validity::{in_one_log, is_row, valid_state};

pub mod adding;
mod checking;
mod climbing;
mod evidence;
pub mod merging;
pub mod ordering;
pub mod validity;

// The phase of a log: growing, or forked with its two evidence rows, the lower id first.
#[derive(Clone, Copy)]
pub enum Phase {
    Growing,
    Forked(u16, u16),
}

// The state of one author's log: the last row or none (0), and the phase.
#[derive(Clone, Copy)]
pub struct LogState {
    pub author: u16,
    pub last: u16,
    pub phase: Phase,
}

// The prefix of two rows, or none (0), and which way each side goes: its child toward the first and toward the second, none (0) for a
// side that stands at the prefix itself.
#[derive(Clone, Copy)]
pub struct Nearest {
    pub row: u16,
    pub first: u16,
    pub second: u16,
}

// The prefix of rows a and b of one author, with its child toward each; 0 stands for none.
pub fn prefix(store: &Store, a: u16, b: u16) -> Result<Nearest, Refusal>
    ensures { Prefixes (table_in store.now) a b result }
{
    let Store { rows, counts, .. } = *store;
    if !well_formed(store) {
        return Err(Refusal::Store);
    }
    if !in_one_log(rows, counts.rows, a, b) {
        return Err(Refusal::Row);
    }
    Ok(climb(rows, a, b))
}

// The state with one more message, row, of its author.
pub fn append(store: &Store, state: LogState, row: u16) -> Result<LogState, Refusal>
    ensures { Appends (table_in store.now) state row result }
{
    let Store { rows, counts, .. } = *store;
    if !well_formed(store) {
        return Err(Refusal::Store);
    }
    if !valid_state(store, state) {
        return Err(Refusal::State);
    }
    if !is_row(rows, counts.rows, state.author, row) {
        return Err(Refusal::Row);
    }
    Ok(add_row(store, state, row))
}

// The merge of two states of one author.
pub fn merge(store: &Store, first: LogState, second: LogState) -> Result<LogState, Refusal>
    ensures { Merges (table_in store.now) first second result }
{
    check_pair(store, first, second)?;
    Ok(merge_states(store, first, second))
}

// Whether the first of two states of one author is at or below the second.
pub fn at_or_below(store: &Store, first: LogState, second: LogState) -> Result<bool, Refusal>
    ensures { ComparesStates (table_in store.now) first second result }
{
    check_pair(store, first, second)?;
    Ok(below_states(store, first, second))
}
