// The release desk's admission: document 02, section 14. A release is admitted with its origin, its component number and its
// expanded byte.
#![tactic(auto)]

ghost use Rattle.store.specs.Clauses.{table_held, SameParts};
ghost use Rattle.desk.specs.Desk.{desk_of, DeskAdmits};

use admission::Admitted;
use answers::Refusal;
use entering::admit_sound;
use origins::well_kept;
use store::StoreMut;

mod entering;
pub mod payload;

// Admit a release into a store: all refusals of an admission in its order, 25 for a bad payload after 15 and before 16, and where there
// is none, one row more, with its origin, its component number and its expanded byte.
pub fn admit_release(
    item: &[u8],
    origin: u8,
    store: &mut StoreMut,
    origins: &mut [u8],
    components: &mut [u16],
    expanded: &mut [u8],
) -> Admitted
    ensures same { SameParts store.old store.new }
    ensures judged { DeskAdmits
        (table_held store.old)
        (desk_of origins.old components.old expanded.old) origin item.now
        (table_held store.new)
        (desk_of origins.new components.new expanded.new) result }
{
    if well_kept(&store.read(), origins) {
        return admit_sound(item, origin, store, origins, components, expanded);
    }
    Admitted::Refused(Refusal::Store)
}
