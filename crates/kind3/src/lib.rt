// One item of kind 3, document 02, section 3: a standing by keys and ids. Its layout.
#![tactic(auto)]

ghost use Rattle.std.specs.Prelude.{◌≡◌, ◌≤◌, length};
ghost use Rattle.kind3.specs.Offsets.{at_count};
ghost use Rattle.kind3.specs.Layout.{body_tests, layout_of};

use answers::Refusal;

pub mod entries;

// The kind of the item, and where its entry count and its entries stand.
pub const STANDING_KIND: usize = 3;

pub const AT_COUNT: usize = 6;

pub const AT_ENTRIES: usize = 8;

// How many bytes an entry has, and where its phase, presence byte, last id and evidence ids stand in it.
pub const ENTRY_SIZE: usize = 130;

pub const TO_PHASE: usize = 32;

pub const TO_PRESENCE: usize = 33;

pub const TO_LAST: usize = 34;

pub const TO_LOW: usize = 66;

pub const TO_HIGH: usize = 98;

// The smallest body, the most entries and the largest length.
pub const SMALLEST_BODY: usize = 2;

pub const ENTRY_LIMIT: usize = 64;

pub const LENGTH_LIMIT: usize = 8324;

// The tests on the body.
fn body_layout(item: &[u8]) -> Result<usize, Refusal>
    requires { at_count ≤ length item.now }
    ensures { result ≡ body_tests item.now }
{
    let body = item.len() - AT_COUNT;
    if body < SMALLEST_BODY {
        return Err(Refusal::Short);
    }
    let count = item::read16(item, AT_COUNT);
    if ENTRY_LIMIT < count {
        return Err(Refusal::Size);
    }
    if body < SMALLEST_BODY + ENTRY_SIZE * count {
        return Err(Refusal::Short);
    }
    if SMALLEST_BODY + ENTRY_SIZE * count < body {
        return Err(Refusal::Long);
    }
    Ok(count)
}

// What reading an item of kind 3 gives, the tests in the order of kind 1. Phase and presence bytes stay as they are.
pub fn layout_of(item: &[u8]) -> Result<usize, Refusal>
    ensures { result ≡ layout_of item.now }
{
    item::check_head(item, LENGTH_LIMIT, STANDING_KIND)?;
    body_layout(item)
}
