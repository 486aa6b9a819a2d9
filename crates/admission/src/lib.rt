// Admission: one item judged against a store and, where every rule holds, written into it. Document 01, "Answer numbers".
#![tactic(auto)]

pub mod write;

ghost use Rattle.std.specs.Prelude.{◌≡◌};
ghost use Rattle.item.specs.Layout.{layout_of};
ghost use Rattle.store.specs.Clauses.{table_held, SameParts};
ghost use Rattle.store.specs.Table.{WellFormed};
ghost use Rattle.admission.specs.Answer.{answer_number, answer_row};
ghost use Rattle.admission.specs.After.{JudgedItem, Judged};

use answers::Refusal;
use basics::narrow;
use item::Fields;
use judging::Verdict;
use judging::judge::judge;
use store::StoreMut;
use write::write_row;

// The answer of an admission: done, with the new row; held, with its row; or refused.
#[derive(Clone, Copy)]
pub enum Admitted {
    Done(u16),
    Held(u16),
    Refused(Refusal),
}

// The number of an answer, as document 01's table gives it.
pub fn answer_number(answer: Admitted) -> u16
    ensures { result ≡ answer_number answer }
{
    match answer {
        Admitted::Done(_) => 0,
        Admitted::Held(_) => 8,
        Admitted::Refused(r) => answers::number(r),
    }
}

// The row of an answer: "A refusal returns its number and row 0 (HELD: the row)".
pub fn answer_row(answer: Admitted) -> u16
    ensures { result ≡ answer_row answer }
{
    match answer {
        Admitted::Done(row) => row,
        Admitted::Held(row) => row,
        Admitted::Refused(_) => 0,
    }
}

// Admit an item that has these fields into a well_formed store.
fn admit_item(item: &[u8], f: Fields, store: &mut StoreMut) -> Admitted
    requires { (layout_of item.now ≡ Ok f) × WellFormed (table_held store.old) }
    ensures same { SameParts store.old store.new }
    ensures judged { JudgedItem (table_held store.old) item.now f (table_held store.new) result }
{
    let id = item::id_of(item);
    let verdict = judge(item, f, &id, &store.read());
    match verdict {
        Verdict::Fits(row) => {
            let next = narrow(store.counts.rows + 1);
            write_row(item, f, &id, row, store);
            Admitted::Done(next)
        }
        Verdict::Holds(r) => Admitted::Held(narrow(r)),
        Verdict::Breaks(r) => Admitted::Refused(r),
    }
}

// Admit an item into a store that is well formed: what every admission is after its test of the store.
pub fn admit_sound(item: &[u8], store: &mut StoreMut) -> Admitted
    requires { WellFormed (table_held store.old) }
    ensures same { SameParts store.old store.new }
    ensures judged { Judged (table_held store.old) item.now (table_held store.new) result }
{
    let layout = item::layout_of(item);
    match layout {
        Ok(f) => admit_item(item, f, store),
        Err(refusal) => Admitted::Refused(refusal),
    }
}
