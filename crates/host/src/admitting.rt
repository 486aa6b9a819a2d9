// Admission, and the report of who handed us a row.
ghost use Rattle.std.specs.Prelude.{◌≡◌, ◌-◌, take, drop};
ghost use Rattle.store.specs.Clauses.{table_in, table_held, SameParts};
ghost use Rattle.host.specs.Calls.{AdmitsPlainly, ReportsPlainly};

use plain::{AdmitAnswer, OriginAnswer};
use store::{Store, StoreMut};

// Admit an item into a store: its row has the origin.
pub fn snowknoll_admit(
    item: &[u8],
    origin: u8,
    store: &mut StoreMut,
    origins: &mut [u8],
) -> AdmitAnswer
    ensures same { SameParts store.old store.new }
    ensures counted { result.counts ≡ store.new.counts }
    ensures admitted { AdmitsPlainly
        (table_held store.old)
        origins.old origin item.now
        (table_held store.new)
        origins.new result }
{
    (origins::admit(item, origin, store, origins), store.counts).into()
}

// Admit the item that lies in an intake from one place to another, where it lies. Places past the end are the end.
pub fn snowknoll_admit_at(
    intake: &[u8],
    start: usize,
    end: usize,
    origin: u8,
    store: &mut StoreMut,
    origins: &mut [u8],
) -> AdmitAnswer
    ensures same { SameParts store.old store.new }
    ensures counted { result.counts ≡ store.new.counts }
    ensures admitted { AdmitsPlainly
        (table_held store.old)
        origins.old origin (take (end - start) (drop start intake.now))
        (table_held store.new)
        origins.new result }
{
    let answer = origins::admit_at(intake, start, end, origin, store, origins);
    (answer, store.counts).into()
}

// The origin of a row.
pub fn snowknoll_origin(store: &Store, origins: &[u8], row: u16) -> OriginAnswer
    ensures { ReportsPlainly
        (table_in store.now)
        origins.now row result }
{
    origins::origin_of(store, origins, row).into()
}
