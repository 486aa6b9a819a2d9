// Reading one item.
ghost use Rattle.std.specs.Prelude.{◌≡◌};
ghost use Rattle.item.specs.Layout.{layout_of};
ghost use Rattle.plain.specs.Plain.{item_answer, stretch_answer};
ghost use Rattle.host.specs.Calls.{WritesId};

use plain::{ItemAnswer, StretchAnswer};

// The fields of an item, or the first refusal of 2 to 5 in document 01's order.
#[unsafe(no_mangle)]
pub extern "C" fn snowknoll_layout(item: &[u8]) -> ItemAnswer
    ensures { result ≡ item_answer (layout_of item.now) }
{
    host::items::snowknoll_layout(item)
}

// Where the payload lies in the item.
#[unsafe(no_mangle)]
pub extern "C" fn snowknoll_payload(item: &[u8]) -> StretchAnswer
    ensures { result ≡ stretch_answer (layout_of item.now) }
{
    host::items::snowknoll_payload(item)
}

// Writes the id of an item; where the item is refused, id stays.
#[unsafe(no_mangle)]
pub extern "C" fn snowknoll_id(item: &[u8], id: &mut [u8; 32]) -> u16
    ensures { WritesId item.now id.old id.new result }
{
    host::items::snowknoll_id(item, id)
}
