// Writing one item.
ghost use Rattle.writing.specs.Message.{message_of};
ghost use Rattle.host.specs.Writing.{WritesPlainly};

use plain::CountAnswer;

// Writes the item of these fields to the start of out, and answers how many bytes it has.
pub fn snowknoll_write_item(
    mark: u8,
    key: &[u8],
    previous: &[u8],
    index: u32,
    payload: &[u8],
    dependencies: &[u8],
    signature: &[u8],
    out: &mut [u8],
) -> CountAnswer
    ensures { WritesPlainly
        (message_of mark key.now previous.now index payload.now dependencies.now signature.now)
        out.old out.new result }
{
    writing::write_item(
        mark,
        key,
        previous,
        index,
        payload,
        dependencies,
        signature,
        out,
    )
    .into()
}
