// Reading one item.
ghost use Rattle.std.specs.Prelude.{◌≡◌};
ghost use Rattle.item.specs.Layout.{layout_of};
ghost use Rattle.plain.specs.Plain.{item_answer, stretch_answer};
ghost use Rattle.host.specs.Calls.{WritesId};

use answers::number;
use plain::{ItemAnswer, StretchAnswer};

// The fields of an item, or the first refusal of 2 to 5 in document 01's order.
pub fn snowknoll_layout(item: &[u8]) -> ItemAnswer
    ensures { result ≡ item_answer (layout_of item.now) }
{
    ItemAnswer::from(item::layout_of(item))
}

// Where the payload lies in the item.
pub fn snowknoll_payload(item: &[u8]) -> StretchAnswer
    ensures { result ≡ stretch_answer (layout_of item.now) }
{
    StretchAnswer::from(item::layout_of(item))
}

// Writes the id of an item; where the item is refused, id stays.
pub fn snowknoll_id(item: &[u8], id: &mut [u8; 32]) -> u16
    ensures { WritesId item.now id.old id.new result }
{
    match item::layout_of(item) {
        Ok(_) => {
            *id = item::id_of(item);
            0
        }
        Err(why) => number(why),
    }
}
