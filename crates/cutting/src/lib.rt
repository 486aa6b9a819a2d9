// How an intake falls into items: document 01, "The program".
#![tactic(auto)]

ghost use Rattle.std.specs.Prelude.{false, ◌≡◌, length};
ghost use Rattle.cutting.specs.Cutting.{CutOff, items_of};

// How many bytes an item has, and whether it is whole: cut at its length, all of its bytes there. A flag beside the size, and no enum or
// Option: every caller goes on by the size, whole or not, and the intake's program alone asks which it was.
#[derive(Clone, Copy)]
pub struct Cut {
    pub size: usize,
    pub whole: bool,
}

// All that is left, as one item that is not whole: the cutting ends there.
fn all_left(left: &[u8]) -> Cut
    ensures { (result.size ≡ length left.now) × (result.whole ≡ false) }
{
    Cut {
        size: left.len(),
        whole: false,
    }
}

// Cuts an item off the bytes that are left: at its length; where that is above the limit, or the input ends before, with all that is there.
pub fn cut_item(left: &[u8]) -> Cut
    ensures { CutOff left.now result.size result.whole }
{
    if left.len() < 4 {
        return all_left(left);
    }
    let length = item::read32(left, 0);
    if item::LENGTH_LIMIT < length {
        return all_left(left);
    }
    if left.len() - 4 < length {
        return all_left(left);
    }
    Cut {
        size: 4 + length,
        whole: true,
    }
}

// How many items there are in a stretch of bytes, a broken last one among them.
pub fn count_items(stretch: &[u8]) -> usize
    ensures { result ≡ length (items_of stretch.now) }
{
    let mut at: usize = 0;
    let mut items: usize = 0;
    // A while: each turn goes on by the size of an item, so there is no range of places to walk.
    while at < stretch.len() {
        let cut = cut_item(&stretch[at..]);
        at += cut.size;
        items += 1;
    }
    items
}
