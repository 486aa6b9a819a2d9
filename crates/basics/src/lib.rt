// What every layer cites and no layer owns: definitions in specs/, laws in proofs/, and a few functions on plain numbers and lists.
#![tactic(auto)]

ghost use Rattle.std.specs.Prelude.{◌+◌, ◌≤◌, ◌<◌, min, ◌≡◌, length};
ghost use Rattle.std.proofs.Math.Seq.{paste};

// A number of two bytes as an index. Not a cast at each call: its promise is the equation that the proofs above cite there.
pub fn wide(x: u16) -> usize
    ensures { result ≡ x }
{
    x as usize
}

// A number that fits two bytes, in two bytes. Not a cast at each call: what it requires is that no number is cut off.
pub fn narrow(n: usize) -> u16
    requires { n < 65536 }
    ensures { result ≡ n }
{
    n as u16
}

// The smaller of two numbers. It stands for its promise, `min`, which the laws on counts and places are about.
pub fn smaller(a: usize, b: usize) -> usize
    ensures { result ≡ min a b }
{
    a.min(b)
}

// Copies all of `from` to a place of `out`.
pub fn copy_at<T: Copy>(out: &mut [T], at: usize, from: &[T])
    requires { at + length from.now ≤ length out.old }
    ensures { out.new ≡ paste out.old at from.now (length from.now) }
{
    // By a loop: the library's copy of a slice calls memmove, which the archive for C asks of nobody.
    for i in 0..from.len() {
        out[at + i] = from[i];
    }
}
