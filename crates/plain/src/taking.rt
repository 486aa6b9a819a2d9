// The answer to a whole intake as a struct of numbers.
ghost use Rattle.std.specs.Prelude.{◌≡◌};
ghost use Rattle.plain.specs.Taking.{intake_answer};

use answers::{Refusal, number};
use store::Counts;

// How many items there are, 0 where the call is refused, and the counts of the store after it.
#[repr(C)]
#[derive(Clone, Copy)]
pub struct IntakeAnswer {
    pub number: u16,
    pub items: usize,
    pub counts: Counts,
}

// The numbers of an intake that leaves the store with these counts.
impl From<(Result<usize, Refusal>, Counts)> for IntakeAnswer {
    ghost from_gives = { λ a r. r ≡ intake_answer a.0 a.1 };

    fn from((w, counts): (Result<usize, Refusal>, Counts)) -> IntakeAnswer {
        match w {
            Ok(items) => IntakeAnswer {
                number: 0,
                items,
                counts,
            },
            Err(why) => IntakeAnswer {
                number: number(why),
                items: 0,
                counts,
            },
        }
    }
}
