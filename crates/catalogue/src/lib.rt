// Steady authors only, for the public catalogue: document 02, section 7.
#![tactic(auto)]

ghost use Rattle.store.specs.Clauses.{table_in, table_held, SameParts};
ghost use Rattle.catalogue.specs.Calls.{TellsSteady, NamesBackstep};
ghost use Rattle.catalogue.specs.Profile.{AdmitsUnder};

use admission::Admitted;
use answers::Refusal;
use deciding::{Backstep, find_backstep};
use entering::admit_under;
use origins::well_kept;
use store::{Store, StoreMut};

pub mod deciding;
mod entering;
mod looking;

// Whether every author of a store is steady: whether the store keeps M7.
pub fn steady(store: &Store) -> Result<bool, Refusal>
    ensures { TellsSteady
        (table_in store.now) result }
{
    let found = backstep(store)?;
    Ok(found.row == 0)
}

// The lowest row that breaks M7, and the latest earlier row that it breaks it against; 0 and 0 where no row does.
pub fn backstep(store: &Store) -> Result<Backstep, Refusal>
    ensures { NamesBackstep
        (table_in store.now) result }
{
    if !inspection::well_formed(store) {
        return Err(Refusal::Store);
    }
    Ok(find_backstep(store.rows, store.deps, store.counts.rows))
}

// Admit an item into a store that keeps M7, and leave one that does: 1, then 23 for a store that breaks it, then all refusals of
// document 01 in its order with 23 for a message that would break it before 16; and where there is none, one row more, with its origin.
pub fn admit(item: &[u8], origin: u8, store: &mut StoreMut, origins: &mut [u8]) -> Admitted
    ensures same { SameParts store.old store.new }
    ensures judged { AdmitsUnder
        (table_held store.old)
        origins.old origin item.now
        (table_held store.new)
        origins.new result }
{
    let held = store.read();
    if !well_kept(&held, origins) {
        return Admitted::Refused(Refusal::Store);
    }
    let found = find_backstep(held.rows, held.deps, held.counts.rows);
    if found.row != 0 {
        return Admitted::Refused(Refusal::Backstep);
    }
    admit_under(item, origin, store, origins)
}
