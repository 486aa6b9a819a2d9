// The store: whether it is well formed, and lookups in it.
ghost use Rattle.std.specs.Prelude.{◌/◌, min, ◌≡◌, length};
ghost use Rattle.basics.specs.Chunk.{chunk_size};
ghost use Rattle.store.specs.Clauses.{table_in};
ghost use Rattle.host.specs.Calls.{Inspects, place_among};

use store::Store;

// Whether the lent parts, with the counts, are a well_formed store: 0, or 1 STORE.
pub fn snowknoll_well_formed(store: &Store) -> u16
    ensures { Inspects (table_in store.now) result }
{
    if inspection::well_formed(store) {
        return 0;
    }
    1
}

// The smaller of a count and how many whole pieces of 32 bytes there are.
fn held(part: &[u8], count: usize) -> usize
    ensures { result ≡ min count (length part.now / chunk_size) }
{
    count.min(part.len() / chunks::PIECE)
}

// The first of the first count pieces of 32 bytes that is wanted; 0 where none is.
fn place_of(part: &[u8], count: usize, wanted: &[u8; 32]) -> usize
    ensures { result ≡ place_among part.now count wanted.now }
{
    chunks::find(part, held(part, count), wanted).unwrap_or(0)
}

// The row among the first count whose id is id; 0 where there is none.
pub fn snowknoll_find_id(ids: &[u8], count: usize, id: &[u8; 32]) -> usize
    ensures { result ≡ place_among ids.now count id.now }
{
    place_of(ids, count, id)
}

// The author among the first count whose key is key; 0 where there is none.
pub fn snowknoll_find_key(keys: &[u8], count: usize, key: &[u8; 32]) -> usize
    ensures { result ≡ place_among keys.now count key.now }
{
    place_of(keys, count, key)
}
