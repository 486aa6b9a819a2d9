// Admission under the catalogue's profile: a message judged by the rules 6 to 15, then by M7, then for room, and written.
ghost use Rattle.std.specs.Prelude.{◌≡◌};
ghost use Rattle.basics.specs.Decides.{Decides};
ghost use Rattle.item.specs.Id.{id_of};
ghost use Rattle.judging.specs.declared.Verdict.TheVariants.{Fits};
ghost use Rattle.judging.specs.Verdict.{rules_of};
ghost use Rattle.store.specs.Clauses.{table_in, table_held, SameParts};
ghost use Rattle.origins.specs.Origins.{WellKept, JudgedFrom};
ghost use Rattle.catalogue.specs.Steady.{KeepsM7};
ghost use Rattle.catalogue.specs.Profile.{M7, ProfileVerdict, MayProfile, MayWrite, JudgedUnder};

use super::deciding::keeps_from;
use admission::Admitted;
use admission::write::write_row;
use answers::Refusal;
use basics::narrow;
use item::Fields;
use judging::Verdict;
use judging::deps::named_rows;
use judging::judge::judge_rules;
use judging::room::is_full;
use store::{Row, Store, StoreMut};

// Whether a message that the rules 6 to 15 let through keeps M7.
fn steps_on(item: &[u8], f: Fields, row: Row, store: &Store) -> bool
    requires { MayProfile (table_in store.now) item.now f
        × (rules_of (table_in store.now) item.now f ≡ Fits row) }
    ensures { Decides (M7
        (table_in store.now)
        item.now f) result }
{
    let n = store.counts.rows;
    // None is missing: 14 has been judged.
    let Ok(named) = named_rows(item, f, store.ids, n) else {
        return false;
    };
    keeps_from(store.rows, store.deps, n, row.prev, &named[..f.count])
}

// 6 to 16 with 23 before 16, of an item with these fields and this id.
fn judge_under(item: &[u8], f: Fields, id: &[u8], store: &Store) -> Verdict
    requires { (id.now ≡ id_of item.now) × MayProfile (table_in store.now) item.now f }
    ensures { ProfileVerdict
        (table_in store.now)
        item.now f result }
{
    let ruled = judge_rules(item, f, id, store);
    match ruled {
        Verdict::Fits(row) => {
            if !steps_on(item, f, row, store) {
                return Verdict::Breaks(Refusal::Backstep);
            }
            if is_full(store, row) {
                return Verdict::Breaks(Refusal::Full);
            }
            Verdict::Fits(row)
        }
        Verdict::Holds(r) => Verdict::Holds(r),
        Verdict::Breaks(r) => Verdict::Breaks(r),
    }
}

// Write a message that the rules 6 to 16 let through, with its origin; 16 where the origins have no place for it.
fn write_placed(
    item: &[u8],
    f: Fields,
    id: &[u8],
    row: Row,
    origin: u8,
    store: &mut StoreMut,
    origins: &mut [u8],
) -> Admitted
    requires { MayWrite (table_held store.old) item.now f id.now row }
    ensures same { SameParts store.old store.new }
    ensures judged { JudgedFrom
        (table_held store.old)
        origins.old origin item.now
        (table_held store.new)
        origins.new result }
{
    let n = store.counts.rows;
    if origins.len() <= n {
        return Admitted::Refused(Refusal::Full);
    }
    let next = narrow(n + 1);
    write_row(item, f, id, row, store);
    origins[n] = origin;
    Admitted::Done(next)
}

// Admit an item that has these fields into a store that keeps M7.
fn admit_item(
    item: &[u8],
    f: Fields,
    origin: u8,
    store: &mut StoreMut,
    origins: &mut [u8],
) -> Admitted
    requires { MayProfile (table_held store.old) item.now f }
    ensures same { SameParts store.old store.new }
    ensures judged { JudgedUnder
        (table_held store.old)
        origins.old origin item.now
        (table_held store.new)
        origins.new result }
{
    let id = item::id_of(item);
    let verdict = judge_under(item, f, &id, &store.read());
    match verdict {
        Verdict::Fits(row) => write_placed(item, f, &id, row, origin, store, origins),
        Verdict::Holds(r) => Admitted::Held(narrow(r)),
        Verdict::Breaks(r) => Admitted::Refused(r),
    }
}

// Admit an item into a store that is well kept and keeps M7: what every admission under the profile is after its tests of the store.
pub fn admit_under(item: &[u8], origin: u8, store: &mut StoreMut, origins: &mut [u8]) -> Admitted
    requires { WellKept (table_held store.old) origins.old
        × KeepsM7 (table_held store.old) }
    ensures same { SameParts store.old store.new }
    ensures judged { JudgedUnder
        (table_held store.old)
        origins.old origin item.now
        (table_held store.new)
        origins.new result }
{
    let layout = item::layout_of(item);
    match layout {
        Ok(f) => admit_item(item, f, origin, store, origins),
        Err(refusal) => Admitted::Refused(refusal),
    }
}
