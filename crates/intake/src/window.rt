// The window over standard input: it holds a whole item, or all that is left of the input.
ghost use Rattle.std.specs.Prelude.{◌≡◌, ◌-◌, ◌≤◌, length, IfOk, OnErr};
ghost use Rattle.intake.specs.Window.{Within, Filled, Unfilled, Refilled, moved};

use std::io;
use std::io::Read;

// The bytes of the window that are read and not judged yet: from at to held.
#[derive(Clone, Copy)]
pub struct Span {
    pub at: usize,
    pub held: usize,
}

// Reads until the part is full or the input ends, and answers how many bytes were read. A read that fails ends it with that error.
fn read_full(input: &mut impl Read, part: &mut [u8]) -> io::Result<usize>
    ensures { IfOk result (λ n. n ≤ length part.new) }
{
    let mut done = 0;
    // No range counts these turns: a read gives any number of bytes.
    while done < part.len() {
        let n = input.read(&mut part[done..])?;
        if n == 0 {
            return Ok(done);
        }
        done += n;
    }
    Ok(done)
}

// Reads on behind the first kept bytes, and answers how many there are then. Its one error is that of a read.
fn fill(input: &mut impl Read, window: &mut [u8], kept: usize) -> io::Result<usize>
    requires { kept ≤ length window.old }
    ensures ok { IfOk result (λ held. Filled window.old kept window.new held) }
    ensures err { OnErr result (Unfilled window.old kept window.new) }
{
    let more = read_full(input, &mut window[kept..])?;
    Ok(kept + more)
}

// The window with a whole item from its place on, or with all that is left of the input. Its one error is that of a read.
pub fn refill(input: &mut impl Read, window: &mut [u8], span: Span) -> io::Result<Span>
    requires { Within window.old span.at span.held }
    ensures ok { IfOk result (λ s. Refilled window.old span.at span.held window.new s.at s.held) }
    ensures err { OnErr result (Unfilled (moved window.old span.at span.held) (span.held - span.at) window.new) }
{
    let at = span.at;
    let held = span.held;
    if item::LARGEST_ITEM <= held - at {
        return Ok(span);
    }
    window.copy_within(at..held, 0);
    let all = fill(input, window, held - at)?;
    Ok(Span { at: 0, held: all })
}
