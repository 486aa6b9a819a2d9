// The answers that the final store gives to the items that are not kept.
ghost use Rattle.std.specs.Prelude.{◌+◌, ◌*◌, ◌<◌};
ghost use Rattle.cutting.specs.Cutting.{items_of};
ghost use Rattle.store.specs.Clauses.{SameParts};
ghost use Rattle.morning.specs.Intake.{kept_by};
ghost use Rattle.salvage.specs.Marks.{BeginsIn};
ghost use Rattle.salvage.specs.Listing.{MayAnswer, AnsweredItem, MayAnswerAll, AnsweredAll};

use super::keeping::ORIGIN;
use super::marks::{KEPT, item_at, put_mark};
use morning::ANSWER_NUMBERS;
use origins::entering::admit_sound;
use store::StoreMut;

// Lists the answer that the final store gives item k, unless it is kept.
fn answer_item(item: &[u8], k: usize, store: &mut StoreMut, origins: &mut [u8], list: &mut [u16])
    requires { MayAnswer item.now k (kept_by store.old origins.old) list.old }
    ensures same { SameParts store.old store.new }
    ensures kept { AnsweredItem item.now k (kept_by store.old origins.old) list.old (kept_by store.new origins.new) list.new }
{
    if list[ANSWER_NUMBERS * k] == KEPT {
        return;
    }
    let answer = admit_sound(item, ORIGIN, store, origins);
    let number = admission::answer_number(answer);
    let row = admission::answer_row(answer);
    put_mark(list, k, number, row);
}

// Lists the answer that the final store gives each of the first n items of a stick that is not kept.
pub fn answer_all(
    stick: &[u8],
    begins: &[usize],
    n: usize,
    store: &mut StoreMut,
    origins: &mut [u8],
    list: &mut [u16],
)
    requires { BeginsIn stick.now begins.now n × MayAnswerAll (items_of stick.now) (kept_by store.old origins.old) list.old }
    ensures same { SameParts store.old store.new }
    ensures kept { AnsweredAll (items_of stick.now) n (kept_by store.old origins.old) list.old (kept_by store.new origins.new) list.new }
{
    for k in 0..n {
        answer_item(item_at(stick, begins, k), k, store, origins, list);
    }
}
