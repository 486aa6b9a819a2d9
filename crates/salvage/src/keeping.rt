// Keeping the items of a stick: each next one is the lowest-numbered one not yet kept that the store, as it then stands, admits.
ghost use Rattle.std.specs.Prelude.{◌+◌, ◌*◌, ◌≤◌, ◌<◌, ◌≡◌, length};
ghost use Rattle.cutting.specs.Cutting.{items_of};
ghost use Rattle.store.specs.Clauses.{SameParts};
ghost use Rattle.morning.specs.Intake.{kept_by, answer_width};
ghost use Rattle.rescue.specs.Greedy.{item_of};
ghost use Rattle.rescue.specs.Salvaging.{empty_counts};
ghost use Rattle.salvage.specs.Marks.{BeginsIn};
ghost use Rattle.salvage.specs.Working.{AllKnown, Rescuing, Ready, Steps, KeptAs, NoneFree, MayStart};

use super::marks::{KEPT, REFUSED, WAITING, item_at, lowest_free, put_mark, wake};
use super::names::missing_name;
use basics::{narrow, wide};
use morning::ANSWER_NUMBERS;
use origins::entering::admit_sound;
use store::{Store, StoreMut};

// The origin of every kept item.
pub const ORIGIN: u8 = 0;

// Item k has got a row: its bytes go behind those of the others, its place is noted, and those that wait for its id are free.
// Answers how many bytes are written then.
fn keep_item(
    stick: &[u8],
    begins: &[usize],
    n: usize,
    k: usize,
    row: u16,
    ids: &[u8],
    clean: &mut [u8],
    bytes: usize,
    list: &mut [u16],
) -> usize
    requires { (BeginsIn stick.now begins.now n × (k < n)) × ((bytes + length (item_of (items_of stick.now) k) ≤ length clean.old) × (answer_width * n ≤ length list.old)) }
    ensures { KeptAs (items_of stick.now) k row ids.now clean.old bytes list.old clean.new result list.new }
{
    let item = item_at(stick, begins, k);
    basics::copy_at(clean, bytes, item);
    put_mark(list, k, KEPT, row);
    wake(stick, begins, list, n, store::id_at(ids, wide(row)));
    bytes + item.len()
}

// Judges item k, the lowest free one, all of whose names are in the store: it is kept, or refused for ever. Answers how many bytes are
// written then.
fn admit_item(
    stick: &[u8],
    begins: &[usize],
    n: usize,
    k: usize,
    store: &mut StoreMut,
    origins: &mut [u8],
    clean: &mut [u8],
    bytes: usize,
    list: &mut [u16],
) -> usize
    requires { BeginsIn stick.now begins.now n × (Ready (items_of stick.now) (kept_by store.old origins.old) clean.old bytes list.old k × AllKnown (kept_by store.old origins.old) (item_of (items_of stick.now) k)) }
    ensures same { SameParts store.old store.new }
    ensures kept { Steps (items_of stick.now) (kept_by store.old origins.old) clean.old bytes list.old (kept_by store.new origins.new) clean.new result list.new }
{
    let answer = admit_sound(item_at(stick, begins, k), ORIGIN, store, origins);
    if admission::answer_number(answer) != 0 {
        put_mark(list, k, REFUSED, 0);
        return bytes;
    }
    let row = admission::answer_row(answer);
    let Store { ids, .. } = store.read();
    keep_item(stick, begins, n, k, row, ids, clean, bytes, list)
}

// Tries item k, the lowest free one: it waits for a name, or is judged. Answers how many bytes are written then.
fn try_item(
    stick: &[u8],
    begins: &[usize],
    n: usize,
    k: usize,
    store: &mut StoreMut,
    origins: &mut [u8],
    clean: &mut [u8],
    bytes: usize,
    list: &mut [u16],
) -> usize
    requires { BeginsIn stick.now begins.now n × Ready (items_of stick.now) (kept_by store.old origins.old) clean.old bytes list.old k }
    ensures same { SameParts store.old store.new }
    ensures kept { Steps (items_of stick.now) (kept_by store.old origins.old) clean.old bytes list.old (kept_by store.new origins.new) clean.new result list.new }
{
    let known = wide(list[ANSWER_NUMBERS * k + 1]);
    let item = item_at(stick, begins, k);
    let Store { ids, counts, .. } = store.read();
    let place = missing_name(item, ids, counts.rows, known);
    if place != 0 {
        put_mark(list, k, WAITING, narrow(place));
        return bytes;
    }
    admit_item(stick, begins, n, k, store, origins, clean, bytes, list)
}

// Keeps item after item of a stick whose items are all marked as free, until none is, in a store that is empty at first. Answers how many
// bytes are written then.
pub fn keep_all(
    stick: &[u8],
    begins: &[usize],
    n: usize,
    store: &mut StoreMut,
    origins: &mut [u8],
    clean: &mut [u8],
    list: &mut [u16],
) -> usize
    requires { (BeginsIn stick.now begins.now n × (store.old.counts ≡ empty_counts)) × MayStart (items_of stick.now) clean.old list.old }
    ensures same { SameParts store.old store.new }
    ensures kept { Rescuing (items_of stick.now) (kept_by store.old origins.old) clean.old list.old (kept_by store.new origins.new) clean.new result list.new × NoneFree (items_of stick.now) list.new }
{
    let mut bytes = 0;
    let mut k = lowest_free(list, n);
    while k < n {
        bytes = try_item(stick, begins, n, k, store, origins, clean, bytes, list);
        k = lowest_free(list, n);
    }
    bytes
}
