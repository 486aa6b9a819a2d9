// Writing one item of document 01 from its fields, as document 02, request 1, asks.
#![tactic(auto)]

ghost use Rattle.std.specs.Prelude.{◌≡◌};
ghost use Rattle.writing.specs.Message.{message_of};
ghost use Rattle.writing.specs.Writing.{full_lengths, WritesItem};

use answers::Refusal;
use item::{COUNT_LIMIT, PAYLOAD_LIMIT, SMALLEST_ITEM};
use laying::put_item;

pub mod laying;

// How many bytes a key, an id and a signature have.
const ID_BYTES: usize = 32;

const SIGNATURE_BYTES: usize = 64;

// Whether each field and each dependency id is of its full length.
fn full_lengths(key: &[u8], previous: &[u8], dependencies: &[u8], signature: &[u8]) -> bool
    ensures { result ≡ full_lengths key.now previous.now dependencies.now signature.now }
{
    key.len() == ID_BYTES
        && previous.len() == ID_BYTES
        && dependencies.len() % ID_BYTES == 0
        && signature.len() == SIGNATURE_BYTES
}

// Writes the item of these fields to the start of out, the dependency ids one after the other, and answers how many bytes it has.
pub fn write_item(
    mark: u8,
    key: &[u8],
    previous: &[u8],
    index: u32,
    payload: &[u8],
    dependencies: &[u8],
    signature: &[u8],
    out: &mut [u8],
) -> Result<usize, Refusal>
    ensures { WritesItem
        (message_of mark key.now previous.now index payload.now dependencies.now signature.now)
        out.old out.new result }
{
    if !full_lengths(key, previous, dependencies, signature) {
        return Err(Refusal::Short);
    }
    if PAYLOAD_LIMIT < payload.len() {
        return Err(Refusal::Size);
    }
    if COUNT_LIMIT < dependencies.len() / ID_BYTES {
        return Err(Refusal::Size);
    }
    if 1 < mark {
        return Err(Refusal::Flag);
    }
    let size = SMALLEST_ITEM + payload.len() + dependencies.len();
    if out.len() < size {
        return Err(Refusal::Room);
    }
    put_item(
        mark,
        key,
        previous,
        index,
        payload,
        dependencies,
        signature,
        out,
    );
    Ok(size)
}
