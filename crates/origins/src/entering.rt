// Admission to a store that is known to be well formed, with origins that are known to have a byte for each row.
ghost use Rattle.std.specs.Prelude.{◌≡◌, ◌≤◌, length};
ghost use Rattle.store.specs.Clauses.{table_in, table_held, SameParts};
ghost use Rattle.origins.specs.Origins.{WellKept, without_place, PlacedWithin, origins_after, JudgedFrom};
ghost use Rattle.store.specs.Table.{Table, WellFormed};
ghost use Rattle.item.specs.Layout.{layout_of};
ghost use Rattle.judging.specs.Verdict.{judged_of, verdict_of};
ghost use Rattle.admission.specs.After.{answer_of};

use admission::Admitted;
use answers::Refusal;
use basics::{narrow, wide};
use item::Fields;
use judging::Verdict;
use judging::judge::judge;
use store::{Store, StoreMut};

// The origin is put at a new row; any other answer leaves them all.
fn put_origin(origins: &mut [u8], answer: Admitted, origin: u8)
    requires { PlacedWithin (length origins.old) answer }
    ensures { origins.new ≡ origins_after origins.old origin answer }
{
    match answer {
        Admitted::Done(row) => {
            origins[wide(row) - 1] = origin;
        }
        Admitted::Held(_) => {}
        Admitted::Refused(_) => {}
    }
}

// The answer to an item that has these fields, where the origins have no place for a row.
fn unplaced_item(item: &[u8], f: Fields, store: &Store) -> Admitted
    requires { (layout_of item.now ≡ Ok f) × WellFormed (table_in store.now) }
    ensures { (t : Table) → result ≡ answer_of t (without_place (judged_of
        (table_in store.now)
        item.now f)) }
{
    let id = item::id_of(item);
    let verdict = judge(item, f, &id, store);
    match verdict {
        Verdict::Fits(_) => Admitted::Refused(Refusal::Full),
        Verdict::Holds(r) => Admitted::Held(narrow(r)),
        Verdict::Breaks(r) => Admitted::Refused(r),
    }
}

// The answer to an item where the origins have no place for a row.
fn unplaced(item: &[u8], store: &Store) -> Admitted
    requires { WellFormed (table_in store.now) }
    ensures { (t : Table) → result ≡ answer_of t (without_place (verdict_of
        (table_in store.now)
        item.now)) }
{
    let layout = item::layout_of(item);
    match layout {
        Ok(f) => unplaced_item(item, f, store),
        Err(refusal) => Admitted::Refused(refusal),
    }
}

// Admit an item into a well_formed store with origins that have a byte for each row.
pub fn admit_sound(item: &[u8], origin: u8, store: &mut StoreMut, origins: &mut [u8]) -> Admitted
    requires { WellKept (table_held store.old) origins.old }
    ensures same { SameParts store.old store.new }
    ensures judged { JudgedFrom
        (table_held store.old)
        origins.old origin item.now
        (table_held store.new)
        origins.new result }
{
    if origins.len() <= store.counts.rows {
        return unplaced(item, &store.read());
    }
    let answer = admission::admit_sound(item, store);
    put_origin(origins, answer, origin);
    answer
}
