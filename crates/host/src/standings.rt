// A standing by keys and ids: written from a frontier, and read into another store's row numbers.
ghost use Rattle.store.specs.Clauses.{table_in};
ghost use Rattle.host.specs.Standing.{SendsPlainly, ReceivesPlainly};

use plain::CountAnswer;
use store::Store;

// Writes what a frontier says by keys and ids to the start of out, an item of kind 3, and answers how many bytes it has.
pub fn snowknoll_write_standing(store: &Store, f: &[u16], out: &mut [u8]) -> CountAnswer
    ensures { SendsPlainly (table_in store.now) f.now out.old out.new result }
{
    standing::write_standing(store, f, out).into()
}

// Reads an item of kind 3 into the store's own row numbers: writes the frontier to the start of out, and answers how many
// numbers it has.
pub fn snowknoll_read_standing(store: &Store, item: &[u8], out: &mut [u16]) -> CountAnswer
    ensures { ReceivesPlainly (table_in store.now) item.now out.old out.new result }
{
    standing::read_standing(store, item, out).into()
}
