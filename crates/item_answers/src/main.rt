// Drives every answer that reading one item can give: 2 to 5 of document 01, each test of its order, and 0 for a sound item.
// Each case is a line: the answer, and how many bytes of payload are handed back.
// An error is that of the printing, and ends main.
#![tactic(auto)]

ghost use Rattle.std.specs.Prelude.{◌<◌};

use std::io;

// One byte at a place; nothing where it does not fit.
fn put(bytes: &mut [u8], at: usize, b: u8) {
    if at < bytes.len() {
        bytes[at] = b;
    }
}

// Two bytes at a place, the low byte first.
fn put16(bytes: &mut [u8], at: usize, n: usize)
    requires { at < 10000 }
{
    put(bytes, at, (n % 256) as u8);
    put(bytes, at + 1, (n / 256 % 256) as u8);
}

// The answer's number: 0 for a sound item.
fn answer(item: &[u8]) -> u16 {
    match item::layout_of(item) {
        Ok(_) => 0,
        Err(r) => answers::number(r),
    }
}

// One line of output for one item.
fn judge(rt: &impl Print, item: &[u8]) -> io::Result<()> {
    let number = answer(item);
    let payload = item::payload_of(item).len();
    println!(rt; "{number} {payload}")
}

// One line for the first `lent` bytes.
fn judge_cut(rt: &impl Print, bytes: &[u8], lent: usize) -> io::Result<()> {
    if lent <= bytes.len() {
        judge(rt, &bytes[0..lent])?;
    }
    Ok(())
}

// An item with this length, kind, payload length and dependency count, all other bytes zero.
fn lay(bytes: &mut [u8], length: usize, kind: usize, payload: usize, count: usize) {
    put16(bytes, 0, length);
    put16(bytes, 4, kind);
    put16(bytes, item::AT_SIZE, payload);
    if payload < 5000 {
        put16(bytes, item::AT_PAYLOAD + payload, count);
    }
}

// Such an item, cut at `lent` bytes.
fn case(
    rt: &impl Print,
    bytes: &mut [u8],
    length: usize,
    kind: usize,
    payload: usize,
    count: usize,
    lent: usize,
) -> io::Result<()> {
    lay(bytes, length, kind, payload, count);
    judge_cut(rt, bytes, lent)
}

// The tests before the body, in order, and a smallest sound item.
fn before_body(rt: &impl Print, bytes: &mut [u8]) -> io::Result<()> {
    case(rt, bytes, 141, 1, 0, 0, 145)?;
    case(rt, bytes, 141, 1, 0, 0, 3)?;
    case(rt, bytes, 6254, 1, 0, 0, 4)?;
    case(rt, bytes, 1, 1, 0, 0, 6258)?;
    case(rt, bytes, 6253, 1, 0, 0, 6256)?;
    case(rt, bytes, 141, 2, 0, 0, 146)?;
    case(rt, bytes, 140, 2, 0, 0, 144)
}

// The tests on the body, in order, and a largest sound item.
fn on_body(rt: &impl Print, bytes: &mut [u8]) -> io::Result<()> {
    case(rt, bytes, 140, 1, 4097, 0, 144)?;
    case(rt, bytes, 141, 1, 4097, 0, 145)?;
    case(rt, bytes, 141, 1, 1, 64, 145)?;
    case(rt, bytes, 142, 1, 1, 64, 146)?;
    case(rt, bytes, 172, 1, 0, 1, 176)?;
    case(rt, bytes, 174, 1, 0, 1, 178)?;
    case(rt, bytes, 6253, 1, 4096, 63, 6257)
}

fn main(rt: HostRuntime) -> io::Result<()> {
    let mut bytes = [0u8; 6258];
    before_body(&rt, &mut bytes)?;
    on_body(&rt, &mut bytes)
}
