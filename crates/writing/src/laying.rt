// Laying the fields of an item one after the other.
ghost use Rattle.std.specs.Prelude.{◌+◌, ◌≤◌, ◌≡◌, length};
ghost use Rattle.basics.specs.Chunk.{chunk_size};
ghost use Rattle.item.specs.Offsets.{at_key, at_size, at_payload};
ghost use Rattle.writing.specs.Bytes.{bytes16, bytes32};
ghost use Rattle.writing.specs.Laying.{laid_at, head_bytes, author_bytes, payload_bytes, end_bytes, MayLay};
ghost use Rattle.writing.specs.Message.{message_of, item_bytes};

use super::{ID_BYTES, SIGNATURE_BYTES};
use basics::copy_at;
use item::{AT_INDEX, AT_KEY, AT_KIND, AT_MARK, AT_PAYLOAD, AT_PREVIOUS, AT_SIZE};

// Puts a number in two bytes, the low byte first.
pub fn put16(out: &mut [u8], at: usize, n: usize)
    requires { at + 2 ≤ length out.old }
    ensures { out.new ≡ laid_at out.old at (bytes16 n) }
{
    out[at] = (n % 256) as u8;
    out[at + 1] = (n / 256 % 256) as u8;
}

// Puts a number in four bytes, the low byte first: its two halves, each as `put16` puts it.
pub fn put32(out: &mut [u8], at: usize, n: usize)
    requires { at + 4 ≤ length out.old }
    ensures { out.new ≡ laid_at out.old at (bytes32 n) }
{
    put16(out, at, n);
    put16(out, at + 2, n / 65536);
}

// Puts the length of what follows, the kind and the mark.
fn put_head(out: &mut [u8], following: usize, mark: u8)
    requires { at_key ≤ length out.old }
    ensures { out.new ≡ laid_at out.old 0 (head_bytes following mark) }
{
    put32(out, 0, following);
    put16(out, AT_KIND, 1);
    out[AT_MARK] = mark;
}

// Puts the author key, the previous id and the index.
fn put_author(out: &mut [u8], key: &[u8], previous: &[u8], index: u32)
    requires { (length key.now ≡ chunk_size) × ((length previous.now ≡ chunk_size) × (at_size ≤ length out.old)) }
    ensures { out.new ≡ laid_at out.old at_key (author_bytes key.now previous.now index) }
{
    copy_at(out, AT_KEY, key);
    copy_at(out, AT_PREVIOUS, previous);
    put32(out, AT_INDEX, index as usize);
}

// Puts the payload length and the payload.
fn put_payload(out: &mut [u8], payload: &[u8])
    requires { at_payload + length payload.now ≤ length out.old }
    ensures { out.new ≡ laid_at out.old at_size (payload_bytes payload.now) }
{
    put32(out, AT_SIZE, payload.len());
    copy_at(out, AT_PAYLOAD, payload);
}

// Puts the dependency count, the dependency ids and the signature at a place.
fn put_end(out: &mut [u8], at: usize, dependencies: &[u8], signature: &[u8])
    requires { at + 2 + length dependencies.now + length signature.now ≤ length out.old }
    ensures { out.new ≡ laid_at out.old at (end_bytes dependencies.now signature.now) }
{
    put16(out, at, dependencies.len() / ID_BYTES);
    copy_at(out, at + 2, dependencies);
    copy_at(out, at + 2 + dependencies.len(), signature);
}

// Puts an item at the start of out, for callers that know the lengths and the room.
pub fn put_item(
    mark: u8,
    key: &[u8],
    previous: &[u8],
    index: u32,
    payload: &[u8],
    dependencies: &[u8],
    signature: &[u8],
    out: &mut [u8],
)
    requires { MayLay (message_of mark key.now previous.now index payload.now dependencies.now signature.now) out.old }
    ensures { out.new ≡ laid_at out.old 0 (item_bytes
        (message_of mark key.now previous.now index payload.now dependencies.now signature.now)) }
{
    let end = AT_PAYLOAD + payload.len();
    put_head(
        out,
        end - AT_KIND + 2 + dependencies.len() + SIGNATURE_BYTES,
        mark,
    );
    put_author(out, key, previous, index);
    put_payload(out, payload);
    put_end(out, end, dependencies, signature);
}
