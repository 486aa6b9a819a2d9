// The order of states.
ghost use Rattle.std.specs.Prelude.{ℕ, ◌≡◌};
ghost use Rattle.basics.specs.Decides.{Decides};
ghost use Rattle.chains.specs.Chain.{growing, forked, AtOrBelow, admissible?, at_or_below?};
ghost use Rattle.store.specs.Clauses.{table_in};
ghost use Rattle.logs.specs.Held.{chain, chain_of, ids_alone, IdHeld, ChildHeld, side_beyond?};
ghost use Rattle.logs.specs.States.{state_of, Pair, Comparable};

use super::climbing::climb;
use super::evidence::lower;
use super::{LogState, Nearest, Phase};
use store::Store;

// Whether row c is admissible beside the evidence rows low and high.
fn admissible(ids: &[u8], low: u16, high: u16, c: u16) -> bool
    requires { IdHeld ids.now high × IdHeld ids.now c }
    ensures { result ≡ admissible? (ids_alone ids.now) low high c }
{
    if c == low {
        return true;
    }
    !lower(ids, c, high)
}

// Whether the first side of a prefix lies beyond bound: the prefix is bound, and its child toward that side is there and admissible
// beside low and high.
fn beyond(ids: &[u8], prefix: Nearest, bound: u16, low: u16, high: u16) -> bool
    requires { IdHeld ids.now high × ChildHeld ids.now prefix.first }
    ensures { result ≡ side_beyond? ids.now prefix bound low high }
{
    if prefix.row != bound {
        return false;
    }
    if prefix.first == 0 {
        return false;
    }
    admissible(ids, low, high, prefix.first)
}

// Whether the state growing at last is at or below the second state.
fn growing_below(ids: &[u8], rows: &[u16], last: u16, second: LogState) -> bool
    requires { Comparable ids.now rows.now (growing last) (state_of second) }
    ensures { (n : ℕ) → result ≡ at_or_below? (chain ids.now rows.now n) (growing last) (state_of second) }
{
    let bound = second.last;
    let prefix = climb(rows, last, bound);
    if prefix.row == last {
        return true;
    }
    let phase = second.phase;
    match phase {
        Phase::Growing => false,
        Phase::Forked(low, high) => beyond(ids, prefix, bound, low, high),
    }
}

// Whether the state forked at last with evidence a and b is at or below the second state.
fn forked_below(ids: &[u8], rows: &[u16], last: u16, a: u16, b: u16, second: LogState) -> bool
    requires { Comparable ids.now rows.now (forked last a b) (state_of second) }
    ensures { (n : ℕ) → result ≡ at_or_below? (chain ids.now rows.now n) (forked last a b) (state_of second) }
{
    let bound = second.last;
    let phase = second.phase;
    let Phase::Forked(low, high) = phase else {
        return false;
    };
    let prefix = climb(rows, last, bound);
    if beyond(ids, prefix, bound, low, high) {
        return true;
    }
    if last != bound {
        return false;
    }
    if !admissible(ids, low, high, a) {
        return false;
    }
    admissible(ids, low, high, b)
}

// Whether the first state is at or below the second.
pub fn below_states(store: &Store, first: LogState, second: LogState) -> bool
    requires { Pair store.now.ids.now store.now.rows.now store.now.counts.rows first second }
    ensures { Decides (AtOrBelow (chain_of (table_in store.now)) (state_of first) (state_of second)) result }
{
    let Store { ids, rows, .. } = *store;
    let last = first.last;
    let phase = first.phase;
    match phase {
        Phase::Growing => growing_below(ids, rows, last, second),
        Phase::Forked(low, high) => forked_below(ids, rows, last, low, high, second),
    }
}
