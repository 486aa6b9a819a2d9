// A whole morning's intake in one call.
ghost use Rattle.morning.specs.Intake.{kept_of};
ghost use Rattle.host.specs.Taking.{TakesInPlainly};

use plain::taking::IntakeAnswer;
use store::{Counts, StoreMut};

// Admits each item of a stretch in turn, all with one origin, and writes the number and the row of each one's answer to the start of list.
#[unsafe(no_mangle)]
pub extern "C" fn snowknoll_take_in(
    stretch: &[u8],
    origin: u8,
    keys: &mut [u8],
    ids: &mut [u8],
    rows: &mut [u16],
    deps: &mut [u16],
    branches: &mut [u16],
    origins: &mut [u8],
    counts: Counts,
    list: &mut [u16],
) -> IntakeAnswer
    ensures { TakesInPlainly
        (kept_of keys.old ids.old rows.old deps.old branches.old origins.old counts)
        origin stretch.now list.old
        (kept_of keys.new ids.new rows.new deps.new branches.new origins.new result.counts)
        list.new result }
{
    let mut store = StoreMut {
        keys,
        ids,
        rows,
        deps,
        branches,
        counts,
    };
    host::taking::snowknoll_take_in(stretch, origin, &mut store, origins, list)
}
