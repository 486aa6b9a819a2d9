// Admission of a release to a store that is known to be well formed, with origins that are known to have a byte for each row.
ghost use Rattle.std.specs.Prelude.{◌≡◌};
ghost use Rattle.item.specs.Id.{id_of};
ghost use Rattle.item.specs.Layout.{layout_of};
ghost use Rattle.store.specs.Clauses.{table_in, table_held, SameParts};
ghost use Rattle.store.specs.Table.{WellFormed};
ghost use Rattle.origins.specs.Origins.{WellKept};
ghost use Rattle.desk.specs.Desk.{desk_of, places_in, release_of, desk_after, JudgedRelease, JudgedStore, ReleasePlaced, DeskJudged};

use crate::payload::{component_in, is_release};
use admission::Admitted;
use admission::write::write_row;
use answers::Refusal;
use basics::{narrow, wide};
use item::Fields;
use judging::Verdict;
use judging::judge::judge_rules;
use judging::room::is_full;
use store::{Store, StoreMut};

// 6 to 15, then 25 and 16, of an item with these fields and this id, where so many rows have a place beside the store.
fn judge_release(item: &[u8], f: Fields, id: &[u8], store: &Store, places: usize) -> Verdict
    requires { (id.now ≡ id_of item.now) × ((layout_of item.now ≡ Ok f) × WellFormed (table_in store.now)) }
    ensures { result ≡ release_of (table_in store.now) places item.now f }
{
    let Store { counts, .. } = *store;
    let ruled = judge_rules(item, f, id, store);
    match ruled {
        Verdict::Fits(row) => {
            if !is_release(item::payload_of(item)) {
                return Verdict::Breaks(Refusal::Payload);
            }
            if places <= counts.rows {
                return Verdict::Breaks(Refusal::Full);
            }
            if is_full(store, row) {
                return Verdict::Breaks(Refusal::Full);
            }
            Verdict::Fits(row)
        }
        Verdict::Holds(r) => Verdict::Holds(r),
        Verdict::Breaks(r) => Verdict::Breaks(r),
    }
}

// Admit a release that has these fields into a well_formed store.
fn admit_fields(item: &[u8], f: Fields, store: &mut StoreMut, places: usize) -> Admitted
    requires { (layout_of item.now ≡ Ok f) × WellFormed (table_held store.old) }
    ensures same { SameParts store.old store.new }
    ensures judged { JudgedRelease (table_held store.old) places item.now f (table_held store.new) result }
{
    let id = item::id_of(item);
    let verdict = judge_release(item, f, &id, &store.read(), places);
    match verdict {
        Verdict::Fits(row) => {
            let next = narrow(store.counts.rows + 1);
            write_row(item, f, &id, row, store);
            Admitted::Done(next)
        }
        Verdict::Holds(r) => Admitted::Held(narrow(r)),
        Verdict::Breaks(r) => Admitted::Refused(r),
    }
}

// Admit a release into the parts of a well_formed store, where so many rows have a place beside them.
fn admit_store(item: &[u8], store: &mut StoreMut, places: usize) -> Admitted
    requires { WellFormed (table_held store.old) }
    ensures same { SameParts store.old store.new }
    ensures judged { JudgedStore (table_held store.old) places item.now (table_held store.new) result }
{
    let layout = item::layout_of(item);
    match layout {
        Ok(f) => admit_fields(item, f, store, places),
        Err(refusal) => Admitted::Refused(refusal),
    }
}

// The origin, the component number and the expanded byte are put at a new row; any other answer leaves them all.
fn put_beside(
    item: &[u8],
    answer: Admitted,
    origin: u8,
    origins: &mut [u8],
    components: &mut [u16],
    expanded: &mut [u8],
)
    requires { ReleasePlaced (places_in (desk_of origins.old components.old expanded.old)) item.now answer }
    ensures { desk_of origins.new components.new expanded.new ≡ desk_after (desk_of origins.old components.old expanded.old) origin item.now answer }
{
    match answer {
        Admitted::Done(row) => {
            let at = wide(row) - 1;
            let payload = item::payload_of(item);
            origins[at] = origin;
            components[at] = component_in(payload);
            expanded[at] = payload[2];
        }
        Admitted::Held(_) => {}
        Admitted::Refused(_) => {}
    }
}

// Admit a release into a well_formed store with origins that have a byte for each row.
pub fn admit_sound(
    item: &[u8],
    origin: u8,
    store: &mut StoreMut,
    origins: &mut [u8],
    components: &mut [u16],
    expanded: &mut [u8],
) -> Admitted
    requires { WellKept (table_held store.old) origins.old }
    ensures same { SameParts store.old store.new }
    ensures judged { DeskJudged
        (table_held store.old)
        (desk_of origins.old components.old expanded.old) origin item.now
        (table_held store.new)
        (desk_of origins.new components.new expanded.new) result }
{
    let places = origins.len().min(components.len().min(expanded.len()));
    let answer = admit_store(item, store, places);
    put_beside(item, answer, origin, origins, components, expanded);
    answer
}
