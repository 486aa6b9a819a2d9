// The release desk's calls as C functions, for studios' programs to link. Each is thin over the proved call of the same name, and its
// answer is a struct of numbers. A slice is a pointer, then a length.
#![tactic(auto)]

ghost use Rattle.std.specs.Prelude.{◌≡◌};
ghost use Rattle.store.specs.Clauses.{table_in, table_held, SameParts};
ghost use Rattle.desk.specs.Desk.{desk_of};
ghost use Rattle.desk_host.specs.Calls.{release_answer, DeskPlainly, ShowsPlainly};

use answers::{Refusal, number};
use desk::admit_release;
use plain::AdmitAnswer;
use releases::{Shown, current_release};
use store::{Store, StoreMut};

// The current release of a component: its row, or 0 where there is none, and its index; whether its menu starts expanded, and whether its
// owner's log is frozen, 1 or 0. Zeros where there is none, and where the call is refused.
#[repr(C)]
#[derive(Clone, Copy)]
pub struct ReleaseAnswer {
    pub number: u16,
    pub row: u16,
    pub index: u16,
    pub expanded: u8,
    pub frozen: u8,
}

// Admit a release into a store: its row has the origin, its component number and its expanded byte.
pub fn snowknoll_desk_admit(
    item: &[u8],
    origin: u8,
    store: &mut StoreMut,
    origins: &mut [u8],
    components: &mut [u16],
    expanded: &mut [u8],
) -> AdmitAnswer
    ensures same { SameParts store.old store.new }
    ensures counted { result.counts ≡ store.new.counts }
    ensures admitted { DeskPlainly
        (table_held store.old)
        (desk_of origins.old components.old expanded.old) origin item.now
        (table_held store.new)
        (desk_of origins.new components.new expanded.new) result }
{
    let answer = admit_release(item, origin, store, origins, components, expanded);
    (answer, store.counts).into()
}

// The current release of a component in a frontier.
pub fn snowknoll_current_release(
    store: &Store,
    f: &[u16],
    components: &[u16],
    expanded: &[u8],
    owners: &[u16],
    component: u16,
) -> ReleaseAnswer
    ensures { ShowsPlainly (table_in store.now) f.now components.now expanded.now owners.now component result }
{
    current_release(store, f, components, expanded, owners, component).into()
}

// The numbers of a current release.
impl From<Result<Option<Shown>, Refusal>> for ReleaseAnswer {
    ghost from_gives = { λ current r. r ≡ release_answer current };

    fn from(current: Result<Option<Shown>, Refusal>) -> ReleaseAnswer {
        match current {
            Ok(Some(shown)) => ReleaseAnswer {
                number: 0,
                row: shown.row,
                index: shown.index,
                expanded: u8::from(shown.expanded),
                frozen: u8::from(shown.frozen),
            },
            Ok(None) => ReleaseAnswer {
                number: 0,
                row: 0,
                index: 0,
                expanded: 0,
                frozen: 0,
            },
            Err(why) => ReleaseAnswer {
                number: number(why),
                row: 0,
                index: 0,
                expanded: 0,
                frozen: 0,
            },
        }
    }
}
