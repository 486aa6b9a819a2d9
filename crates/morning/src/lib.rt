// A whole morning's intake in one call: document 02, section 4. The store is checked once, and each item is judged as admission judges it.
#![tactic(auto)]

ghost use Rattle.std.specs.Prelude.{◌≡◌, ◌+◌, ◌*◌, ◌≤◌, ◌<◌, length};
ghost use Rattle.cutting.specs.Cutting.{items_of};
ghost use Rattle.store.specs.Clauses.{table_held, SameParts};
ghost use Rattle.origins.specs.Origins.{WellKept};
ghost use Rattle.morning.specs.Intake.{kept_by, answer_width, answer_put, Next, Each, TakesIn};

use admission::Admitted;
use answers::Refusal;
use origins::entering::admit_sound;
use origins::well_kept;
use store::StoreMut;

// How many numbers of the list an item takes: its answer's number and row.
pub const ANSWER_NUMBERS: usize = 2;

// Puts the number and the row of an answer at the places of item k, counted from 0.
fn put_answer(list: &mut [u16], k: usize, answer: Admitted)
    requires { answer_width * k + 1 < length list.old }
    ensures { list.new ≡ answer_put list.old k answer }
{
    let at = ANSWER_NUMBERS * k;
    list[at] = admission::answer_number(answer);
    list[at + 1] = admission::answer_row(answer);
}

// Admits the item that begins at a place of the stretch to a well_formed store, and lists its answer as that of item k. Answers where the
// next item begins.
fn admit_next(
    stretch: &[u8],
    at: usize,
    origin: u8,
    store: &mut StoreMut,
    origins: &mut [u8],
    list: &mut [u16],
    k: usize,
) -> usize
    requires { (at < length stretch.now) × (WellKept (table_held store.old) origins.old × (answer_width * k + 1 < length list.old)) }
    ensures same { SameParts store.old store.new }
    ensures taken { Next (kept_by store.old origins.old) origin stretch.now at list.old k (kept_by store.new origins.new) list.new result }
{
    let cut = cutting::cut_item(&stretch[at..]);
    let end = at + cut.size;
    let answer = admit_sound(&stretch[at..end], origin, store, origins);
    put_answer(list, k, answer);
    end
}

// Admits each item of a stretch in turn to a well_formed store, its answer put into a list that has room for all.
fn admit_each(
    stretch: &[u8],
    origin: u8,
    store: &mut StoreMut,
    origins: &mut [u8],
    list: &mut [u16],
)
    requires { WellKept (table_held store.old) origins.old × (answer_width * length (items_of stretch.now) ≤ length list.old) }
    ensures same { SameParts store.old store.new }
    ensures taken { Each (kept_by store.old origins.old) origin stretch.now list.old (kept_by store.new origins.new) list.new }
{
    let mut at: usize = 0;
    let mut k: usize = 0;
    // A while: each turn goes on by the size of an item, so there is no range of places to walk.
    while at < stretch.len() {
        at = admit_next(stretch, at, origin, store, origins, list, k);
        k += 1;
    }
}

// Takes in a stretch of items: each is admitted in turn, and its number and row are listed.
pub fn take_in(
    stretch: &[u8],
    origin: u8,
    store: &mut StoreMut,
    origins: &mut [u8],
    list: &mut [u16],
) -> Result<usize, Refusal>
    ensures same { SameParts store.old store.new }
    ensures taken { TakesIn (kept_by store.old origins.old) origin stretch.now list.old (kept_by store.new origins.new) list.new result }
{
    if !well_kept(&store.read(), origins) {
        return Err(Refusal::Store);
    }
    let items = cutting::count_items(stretch);
    if list.len() / ANSWER_NUMBERS < items {
        return Err(Refusal::Room);
    }
    admit_each(stretch, origin, store, origins, list);
    Ok(items)
}
