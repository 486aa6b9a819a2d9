// Who handed us this: document 02, section 9. Every row has an origin, given at its admission.
#![tactic(auto)]

ghost use Rattle.std.specs.Prelude.{◌-◌, take, drop};
ghost use Rattle.basics.specs.Decides.{Decides};
ghost use Rattle.store.specs.Clauses.{table_in, table_held, SameParts};
ghost use Rattle.origins.specs.Origins.{WellKept, Reports, AdmitsFrom};

use admission::Admitted;
use answers::Refusal;
use basics::wide;
use entering::admit_sound;
use store::{Store, StoreMut};

pub mod entering;

// Whether the lent parts, with the counts, are a well_formed store, and the origins have a byte for each of its rows.
pub fn well_kept(store: &Store, origins: &[u8]) -> bool
    ensures { Decides (WellKept
        (table_in store.now)
        origins.now) result }
{
    store.counts.rows <= origins.len() && inspection::well_formed(store)
}

// Admit an item into a store: all refusals of document 01 in its order, and where there is none, one row more, with its origin.
pub fn admit(item: &[u8], origin: u8, store: &mut StoreMut, origins: &mut [u8]) -> Admitted
    ensures same { SameParts store.old store.new }
    ensures judged { AdmitsFrom
        (table_held store.old)
        origins.old origin item.now
        (table_held store.new)
        origins.new result }
{
    if well_kept(&store.read(), origins) {
        return admit_sound(item, origin, store, origins);
    }
    Admitted::Refused(Refusal::Store)
}

// Admit the item that lies in an intake from one place to another, where it lies. Places past the end are the end.
pub fn admit_at(
    intake: &[u8],
    start: usize,
    end: usize,
    origin: u8,
    store: &mut StoreMut,
    origins: &mut [u8],
) -> Admitted
    ensures same { SameParts store.old store.new }
    ensures judged { AdmitsFrom
        (table_held store.old)
        origins.old origin (take (end - start) (drop start intake.now))
        (table_held store.new)
        origins.new result }
{
    let to = end.min(intake.len());
    let from = start.min(to);
    admit(&intake[from..to], origin, store, origins)
}

// The origin of a row.
pub fn origin_of(store: &Store, origins: &[u8], row: u16) -> Result<u8, Refusal>
    ensures { Reports (table_in store.now)
        origins.now row result }
{
    if !well_kept(store, origins) {
        return Err(Refusal::Store);
    }
    if row == 0 {
        return Err(Refusal::Row);
    }
    let at = wide(row);
    if store.counts.rows < at {
        return Err(Refusal::Row);
    }
    Ok(origins[at - 1])
}
