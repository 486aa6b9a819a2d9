// The branches of a forked state.
ghost use Rattle.store.specs.Clauses.{table_in};
ghost use Rattle.host.specs.Calls.{ListsPlainly};

use plain::CountAnswer;
use plain::states::State;
use store::Store;

// Writes every branch of a forked state to the start of out, two numbers each, and answers how many numbers it wrote.
pub fn snowknoll_branches(store: &Store, state: State, out: &mut [u16]) -> CountAnswer
    ensures { ListsPlainly (table_in store.now) state out.old out.new result }
{
    review::branches_of(store, state.into(), out).into()
}
