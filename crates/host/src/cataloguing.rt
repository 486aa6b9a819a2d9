// The public catalogue: whether its authors are steady, who is not, and the admission under its profile.
ghost use Rattle.std.specs.Prelude.{◌≡◌};
ghost use Rattle.store.specs.Clauses.{table_in, table_held, SameParts};
ghost use Rattle.host.specs.Catalogue.{TellsPlainly, NamesPlainly, CataloguesPlainly};

use plain::backsteps::BackstepAnswer;
use plain::{AdmitAnswer, YesAnswer};
use store::{Store, StoreMut};

// Admit an item into a store that keeps M7, and leave one that does: its row has the origin.
pub fn snowknoll_admit_catalogue(
    item: &[u8],
    origin: u8,
    store: &mut StoreMut,
    origins: &mut [u8],
) -> AdmitAnswer
    ensures same { SameParts store.old store.new }
    ensures counted { result.counts ≡ store.new.counts }
    ensures admitted { CataloguesPlainly
        (table_held store.old)
        origins.old origin item.now
        (table_held store.new)
        origins.new result }
{
    (catalogue::admit(item, origin, store, origins), store.counts).into()
}

// Whether a store keeps M7.
pub fn snowknoll_steady(store: &Store) -> YesAnswer
    ensures { TellsPlainly (table_in store.now) result }
{
    catalogue::steady(store).into()
}

// The lowest row that breaks M7, and the latest earlier row that it breaks it against.
pub fn snowknoll_backstep(store: &Store) -> BackstepAnswer
    ensures { NamesPlainly (table_in store.now) result }
{
    catalogue::backstep(store).into()
}
