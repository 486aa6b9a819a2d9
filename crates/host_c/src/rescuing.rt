// The rescue of a stick with holes.
ghost use Rattle.rescue.specs.Salvaging.{lent_of};
ghost use Rattle.host.specs.Rescuing.{SalvagesPlainly};

use host::rescuing::SalvageAnswer;

// Salvages a stick: the kept items into the store, which starts empty whatever its parts hold, and to the start of clean; and for each item of
// the stick two numbers to the start of list, 0 and its place where it is kept, or else the answer and row that the final store gives it.
#[unsafe(no_mangle)]
pub extern "C" fn snowknoll_salvage(
    stick: &[u8],
    keys: &mut [u8],
    ids: &mut [u8],
    rows: &mut [u16],
    deps: &mut [u16],
    branches: &mut [u16],
    origins: &mut [u8],
    clean: &mut [u8],
    list: &mut [u16],
) -> SalvageAnswer
    ensures { SalvagesPlainly stick.now
        (lent_of keys.old ids.old rows.old deps.old branches.old origins.old clean.old list.old)
        (lent_of keys.new ids.new rows.new deps.new branches.new origins.new clean.new list.new) result }
{
    host::rescuing::snowknoll_salvage(stick, keys, ids, rows, deps, branches, origins, clean, list)
}
