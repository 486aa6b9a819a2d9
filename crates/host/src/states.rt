// The calls on log states.
ghost use Rattle.store.specs.Clauses.{table_in};
ghost use Rattle.host.specs.Calls.{PrefixesPlainly, AppendsPlainly, MergesPlainly, ComparesPlainly};

use plain::states::State;
use plain::{PrefixAnswer, StateAnswer, YesAnswer};
use store::Store;

// The prefix of rows a and b of one author, with its child toward each; 0 stands for none.
pub fn snowknoll_prefix(store: &Store, a: u16, b: u16) -> PrefixAnswer
    ensures { PrefixesPlainly (table_in store.now) a b result }
{
    logs::prefix(store, a, b).into()
}

// The state with one more message, row, of its author.
pub fn snowknoll_append(store: &Store, state: State, row: u16) -> StateAnswer
    ensures { AppendsPlainly (table_in store.now) state row result }
{
    logs::append(store, state.into(), row).into()
}

// The merge of two states of one author.
pub fn snowknoll_merge(store: &Store, first: State, second: State) -> StateAnswer
    ensures { MergesPlainly (table_in store.now) first second result }
{
    logs::merge(store, first.into(), second.into()).into()
}

// Whether the first of two states of one author is at or below the second.
pub fn snowknoll_at_or_below(store: &Store, first: State, second: State) -> YesAnswer
    ensures { ComparesPlainly (table_in store.now) first second result }
{
    logs::at_or_below(store, first.into(), second.into()).into()
}
