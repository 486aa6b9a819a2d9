// The rescue of a stick with holes.
ghost use Rattle.std.specs.Prelude.{◌≡◌};
ghost use Rattle.rescue.specs.Salvaging.{lent_of};
ghost use Rattle.host.specs.Rescuing.{salvage_answer, SalvagesPlainly};

use answers::{Refusal, number};
use rescue::Clean;
use store::Counts;

// What was salvaged: how many items the stick has, how many bytes the clean intake has, and the counts of the store; zeros where the call is
// refused.
#[repr(C)]
#[derive(Clone, Copy)]
pub struct SalvageAnswer {
    pub number: u16,
    pub items: usize,
    pub bytes: usize,
    pub counts: Counts,
}

// The numbers of a salvage.
impl From<Result<Clean, Refusal>> for SalvageAnswer {
    ghost from_gives = { λ a r. r ≡ salvage_answer a };

    fn from(a: Result<Clean, Refusal>) -> SalvageAnswer {
        match a {
            Ok(c) => SalvageAnswer {
                number: 0,
                items: c.items,
                bytes: c.bytes,
                counts: c.counts,
            },
            Err(why) => SalvageAnswer {
                number: number(why),
                items: 0,
                bytes: 0,
                counts: Counts {
                    rows: 0,
                    authors: 0,
                    deps: 0,
                },
            },
        }
    }
}

// Salvages a stick: the kept items into the store, which starts empty whatever its parts hold, and to the start of clean; and for each item of
// the stick two numbers to the start of list, 0 and its place where it is kept, or else the answer and row that the final store gives it.
pub fn snowknoll_salvage(
    stick: &[u8],
    keys: &mut [u8],
    ids: &mut [u8],
    rows: &mut [u16],
    deps: &mut [u16],
    branches: &mut [u16],
    origins: &mut [u8],
    clean: &mut [u8],
    list: &mut [u16],
) -> SalvageAnswer
    ensures { SalvagesPlainly stick.now
        (lent_of keys.old ids.old rows.old deps.old branches.old origins.old clean.old list.old)
        (lent_of keys.new ids.new rows.new deps.new branches.new origins.new clean.new list.new) result }
{
    salvage::salvage(stick, keys, ids, rows, deps, branches, origins, clean, list).into()
}
