// The parts of a store as they are lent.
ghost use Rattle.std.specs.Prelude.{◌≡◌};
ghost use Rattle.basics.specs.Bytes.{Bytes};

// How much of the lent parts is in use.
#[repr(C)]
#[derive(Clone, Copy)]
pub struct Counts {
    pub rows: usize,
    pub authors: usize,
    pub deps: usize,
}

// The lent parts of a store, to be read, and how much of them is in use.
#[derive(Clone, Copy)]
pub struct Store<'a> {
    pub keys: &'a [u8],
    pub ids: &'a [u8],
    pub rows: &'a [u16],
    pub deps: &'a [u16],
    pub branches: &'a [u16],
    pub counts: Counts,
    pub ghost bytes: { Bytes ids.now },
}

// The same bytes: each is below 256, as its type says.
fn as_bytes(part: &[u8]) -> &[u8]
    ensures { (result.now ≡ part.now) × Bytes part.now }
{
    part
}

impl<'a> Store<'a> {
    ghost use Rattle.store.specs.Clauses.{table_in, table_of};

    // The store of these parts. Nothing is asked of them: that the ids are bytes is what their type says.
    pub fn new(
        keys: &'a [u8],
        ids: &'a [u8],
        rows: &'a [u16],
        deps: &'a [u16],
        branches: &'a [u16],
        counts: Counts,
    ) -> Store<'a>
        ensures { table_in result ≡ table_of keys.now ids.now rows.now deps.now branches.now counts }
    {
        Store {
            keys,
            ids: as_bytes(ids),
            rows,
            deps,
            branches,
            counts,
        }
    }
}

// The lent parts of a store, to be written, and how much of them is in use.
#[derive(Drop)]
pub struct StoreMut<'a> {
    pub keys: &'a mut [u8],
    pub ids: &'a mut [u8],
    pub rows: &'a mut [u16],
    pub deps: &'a mut [u16],
    pub branches: &'a mut [u16],
    pub counts: Counts,
}

impl StoreMut<'_> {
    ghost use Rattle.store.specs.Clauses.{table_in, table_held};

    // The store as it stands, to be read.
    pub fn read(&self) -> Store<'_>
        ensures { table_in result ≡ table_held self.now }
    {
        Store::new(
            self.keys,
            self.ids,
            self.rows,
            self.deps,
            self.branches,
            self.counts,
        )
    }
}
