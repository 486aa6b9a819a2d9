// Writing the marked rows, rising.
ghost use Rattle.std.specs.Prelude.{◌≤◌, ◌<◌, ◌≡◌, ◌++◌, length, drop};
ghost use Rattle.store.specs.Limits.{row_limit};
ghost use Rattle.packing.specs.Marks.{listing};
ghost use Rattle.packing.specs.Packing.{WritesMarked};

use answers::Refusal;

// How many rows up to count are marked.
pub fn count_marked(marks: &[u8], count: usize) -> usize
    requires { count < length marks.now }
    ensures { result ≡ length (listing marks.now count) }
{
    marks[1..=count].iter().filter(|mark| **mark == 1).count()
}

// Writes the marked rows up to count, rising, at the front of out.
pub fn write_marked(marks: &[u8], count: usize, out: &mut [u16])
    requires { (count < length marks.now) × ((count ≤ row_limit) × (length (listing marks.now count) ≤ length out.old)) }
    ensures { out.new ≡ listing marks.now count ++ drop (length (listing marks.now count)) out.old }
{
    let mut used = 0;
    for row in 1..=count {
        if marks[row] == 1 {
            out[used] = row as u16;
            used += 1;
        }
    }
}

// Writes the marked rows up to count, rising, unless out is shorter than they are many.
pub fn write_list(marks: &[u8], count: usize, out: &mut [u16]) -> Result<usize, Refusal>
    requires { (count < length marks.now) × (count ≤ row_limit) }
    ensures { WritesMarked marks.now count out.old out.new result }
{
    let size = count_marked(marks, count);
    if out.len() < size {
        return Err(Refusal::Room);
    }
    write_marked(marks, count, out);
    Ok(size)
}
