// A message laid out as an item: the fields that the limits need, all other bytes zero.
ghost use Rattle.std.specs.Prelude.{◌<◌, ◌≡◌, length, set};
ghost use Rattle.chunks.specs.Piece.{piece_at};
ghost use Rattle.limits.specs.Laid.{zeroed, number_put, bytes_put, ids_put, sizes_put, author_put, Lays};

// Sets every byte to zero.
fn clear(item: &mut [u8])
    ensures { item.new ≡ zeroed item.old (length item.old) }
{
    item.fill(0);
}

// One byte at a place, where it fits.
fn put(item: &mut [u8], at: usize, b: u8)
    ensures { item.new ≡ set item.old at b }
{
    if at < item.len() {
        item[at] = b;
    }
}

// A number at a place, the low byte first.
fn put16(item: &mut [u8], at: usize, n: usize)
    requires { at < 10000 }
    ensures { item.new ≡ number_put item.old at n }
{
    put(item, at, (n % 256) as u8);
    put(item, at + 1, (n / 256 % 256) as u8);
}

// The id of a row at a place, where it fits; nothing for row 0.
fn put_id(item: &mut [u8], at: usize, ids: &[u8], row: usize)
    ensures { item.new ≡ bytes_put item.old at (piece_at ids.now row) }
{
    lines::put(item, at, store::id_at(ids, row));
}

// The ids of rows 1 to count, from a place on.
fn put_ids(item: &mut [u8], at: usize, ids: &[u8], count: usize)
    requires { (at < 5000) × (count < 100) }
    ensures { item.new ≡ ids_put item.old at ids.now count }
{
    for n in 0..count {
        put_id(item, at + chunks::PIECE * n, ids, n + 1);
    }
}

// The author's number as a key, and the index.
fn put_author(item: &mut [u8], author: usize, index: usize)
    ensures { item.new ≡ author_put item.old author index }
{
    put(item, item::AT_MARK, 1);
    put16(item, item::AT_KEY, author);
    put16(item, item::AT_INDEX, index);
}

// The length of all that follows, the kind, and the two counts inside the body.
fn put_sizes(item: &mut [u8], payload: usize, count: usize)
    requires { (payload < 4900) × (count < 100) }
    ensures { item.new ≡ sizes_put item.old payload count }
{
    put16(
        item,
        0,
        item::SMALLEST_ITEM - 4 + payload + chunks::PIECE * count,
    );
    put16(item, item::AT_KIND, 1);
    put16(item, item::AT_SIZE, payload);
    put16(item, item::AT_PAYLOAD + payload, count);
}

// A message of an author with its mark, index and previous row, a payload of so many bytes, and rows 1 to count as dependencies. How
// many bytes it has.
pub fn lay(
    item: &mut [u8],
    ids: &[u8],
    author: usize,
    previous: usize,
    index: usize,
    payload: usize,
    count: usize,
) -> usize
    requires { (payload < 4900) × (count < 100) }
    ensures { Lays item.old ids.now author previous index payload count item.new result }
{
    clear(item);
    put_sizes(item, payload, count);
    put_author(item, author, index);
    put_id(item, item::AT_PREVIOUS, ids, previous);
    put_ids(item, item::AT_DEPENDENCIES + payload, ids, count);
    (item::SMALLEST_ITEM + payload + chunks::PIECE * count).min(item.len())
}
