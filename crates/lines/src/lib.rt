// Lines of text in a lent buffer: what the programs print.
#![tactic(auto)]

ghost use Rattle.lines.specs.Line.{Put, PutDecimal, PutNumber, Ended};

use digits::decimal;
use std::io;

mod digits;

// Puts text behind the first used bytes of out and answers how many are used now; changes nothing where it does not fit.
pub fn put(out: &mut [u8], used: usize, text: &[u8]) -> usize
    ensures { Put out.old used text.now out.new result }
{
    if out.len() < used {
        return used;
    }
    if out.len() - used < text.len() {
        return used;
    }
    basics::copy_at(out, used, text);
    used + text.len()
}

// Puts the decimal digits of n, as put does.
pub fn put_decimal(out: &mut [u8], used: usize, n: u64) -> usize
    ensures { PutDecimal out.old used n out.new result }
{
    let mut digits = [0u8; 20];
    let k = decimal(n, &mut digits);
    put(out, used, &digits[..k])
}

// Puts a space and the decimal digits of n, each as put does.
pub fn put_number(out: &mut [u8], used: usize, n: u16) -> usize
    ensures { PutNumber out.old used n out.new result }
{
    let at = put(out, used, b" ");
    put_decimal(out, at, n as u64)
}

// Ends a line and writes it to standard output; no byte more than out holds. Its one error is that of the writing, which leaves the line
// ended as it does.
pub fn print(rt: &impl Print, out: &mut [u8], used: usize) -> io::Result<()>
    ensures { Ended out.old used out.new }
{
    let end = put(out, used, b"\n");
    if end <= out.len() {
        rt.write_all(&out[0..end])?;
    }
    Ok(())
}
