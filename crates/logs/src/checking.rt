// The tests that the calls on two states share.
ghost use Rattle.store.specs.Clauses.{table_in};
ghost use Rattle.logs.specs.Calls.{ChecksPair};

use super::LogState;
use super::validity::valid_state;
use answers::Refusal;
use inspection::well_formed;
use store::Store;

// Tests the store, the first state, the second, and that both are of one author.
pub fn check_pair(store: &Store, first: LogState, second: LogState) -> Result<(), Refusal>
    ensures { ChecksPair (table_in store.now) first second result }
{
    if !well_formed(store) {
        return Err(Refusal::Store);
    }
    if !valid_state(store, first) {
        return Err(Refusal::State);
    }
    if !valid_state(store, second) {
        return Err(Refusal::State);
    }
    if first.author != second.author {
        return Err(Refusal::Pair);
    }
    Ok(())
}
