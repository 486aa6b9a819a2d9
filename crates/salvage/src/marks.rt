// What the list says of each item until the end, and where the items begin.
ghost use Rattle.std.specs.Prelude.{◌+◌, ◌*◌, ◌≤◌, ◌<◌, ◌≡◌, length};
ghost use Rattle.cutting.specs.Cutting.{items_of};
ghost use Rattle.morning.specs.Intake.{answer_width};
ghost use Rattle.rescue.specs.Greedy.{item_of};
ghost use Rattle.salvage.specs.Marks.{Begins, BeginsIn, mark_put, AllFree, LowestFree, woken_item, Woken};

use super::names::names_it;
use morning::ANSWER_NUMBERS;

// The marks of an item, and the number beside each: kept, with its place; waiting for the name at this place; free to be tried, with all
// names up to this place in the store; refused for ever. They are numbers and no enum, since they stand in the lent list of numbers.
pub const KEPT: u16 = 0;

pub const WAITING: u16 = 1;

pub const FREE: u16 = 2;

pub const REFUSED: u16 = 3;

// Puts a mark and its number at item k.
pub fn put_mark(list: &mut [u16], k: usize, mark: u16, number: u16)
    requires { answer_width * k + 1 < length list.old }
    ensures { list.new ≡ mark_put list.old k mark number }
{
    let at = ANSWER_NUMBERS * k;
    list[at] = mark;
    list[at + 1] = number;
}

// Marks the first n items as free, with no name known.
pub fn free_all(list: &mut [u16], n: usize)
    requires { answer_width * n ≤ length list.old }
    ensures { AllFree list.old n list.new }
{
    for k in 0..n {
        put_mark(list, k, FREE, 0);
    }
}

// The lowest of the first n items that is free; n where none is.
pub fn lowest_free(list: &[u16], n: usize) -> usize
    requires { answer_width * n ≤ length list.now }
    ensures { LowestFree list.now n result }
{
    for k in 0..n {
        if list[ANSWER_NUMBERS * k] == FREE {
            return k;
        }
    }
    n
}

// Writes where each item of a stick begins, and last where it ends. The items end where the bytes do, so the loop goes by bytes.
pub fn fill_begins(stick: &[u8], begins: &mut [usize])
    requires { length (items_of stick.now) < length begins.old }
    ensures { Begins (items_of stick.now) begins.new (length (items_of stick.now)) }
{
    let mut at: usize = 0;
    let mut k: usize = 0;
    begins[0] = 0;
    while at < stick.len() {
        let cut = cutting::cut_item(&stick[at..]);
        at += cut.size;
        k += 1;
        begins[k] = at;
    }
}

// The bytes of item k of a stick, of which the table has the beginnings.
pub fn item_at<'a>(stick: &'a [u8], begins: &[usize], k: usize) -> &'a [u8]
    requires { (k < length (items_of stick.now)) × BeginsIn stick.now begins.now (length (items_of stick.now)) }
    ensures { result.now ≡ item_of (items_of stick.now) k }
{
    let at = begins[k];
    let end = begins[k + 1];
    &stick[at..end]
}

// Frees item k where it waits for this id.
fn wake_item(item: &[u8], list: &mut [u16], k: usize, id: &[u8])
    requires { answer_width * k + 1 < length list.old }
    ensures { list.new ≡ woken_item item.now list.old k id.now }
{
    let at = ANSWER_NUMBERS * k;
    if list[at] != WAITING {
        return;
    }
    if names_it(item, basics::wide(list[at + 1]), id) {
        list[at] = FREE;
    }
}

// Frees each of the first n items of a stick that waits for this id.
pub fn wake(stick: &[u8], begins: &[usize], list: &mut [u16], n: usize, id: &[u8])
    requires { BeginsIn stick.now begins.now n × (answer_width * n ≤ length list.old) }
    ensures { Woken (items_of stick.now) list.old id.now n list.new }
{
    for k in 0..n {
        wake_item(item_at(stick, begins, k), list, k, id);
    }
}
