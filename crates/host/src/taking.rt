// A whole morning's intake in one call.
ghost use Rattle.std.specs.Prelude.{◌≡◌};
ghost use Rattle.store.specs.Clauses.{SameParts};
ghost use Rattle.morning.specs.Intake.{kept_by};
ghost use Rattle.host.specs.Taking.{TakesInPlainly};

use plain::taking::IntakeAnswer;
use store::StoreMut;

// Admits each item of a stretch in turn, all with one origin, and writes the number and the row of each one's answer to the start of list.
pub fn snowknoll_take_in(
    stretch: &[u8],
    origin: u8,
    store: &mut StoreMut,
    origins: &mut [u8],
    list: &mut [u16],
) -> IntakeAnswer
    ensures same { SameParts store.old store.new }
    ensures counted { result.counts ≡ store.new.counts }
    ensures taken { TakesInPlainly
        (kept_by store.old origins.old)
        origin stretch.now list.old
        (kept_by store.new origins.new)
        list.new result }
{
    let taken = morning::take_in(stretch, origin, store, origins, list);
    (taken, store.counts).into()
}
