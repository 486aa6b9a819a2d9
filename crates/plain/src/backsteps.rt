// The lowest row that breaks M7, as numbers: document 02, section 7.
ghost use Rattle.std.specs.Prelude.{◌≡◌};
ghost use Rattle.plain.specs.Backsteps.{backstep_answer};

use answers::{Refusal, number};
use catalogue::deciding::Backstep;

// A row, and the earlier row that it breaks M7 against; zeros where no row does, and where the call is refused.
#[repr(C)]
#[derive(Clone, Copy)]
pub struct BackstepAnswer {
    pub number: u16,
    pub row: u16,
    pub earlier: u16,
}

// The numbers of a backstep.
impl From<Result<Backstep, Refusal>> for BackstepAnswer {
    ghost from_gives = { λ b r. r ≡ backstep_answer b };

    fn from(b: Result<Backstep, Refusal>) -> BackstepAnswer {
        match b {
            Ok(w) => BackstepAnswer {
                number: 0,
                row: w.row,
                earlier: w.earlier,
            },
            Err(why) => BackstepAnswer {
                number: number(why),
                row: 0,
                earlier: 0,
            },
        }
    }
}
