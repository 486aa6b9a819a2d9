// One item of document 01, "The item": its layout, its payload as a part of it, its keys and ids as parts of it.
#![tactic(auto)]

ghost use Rattle.std.specs.Prelude.{◌≡◌, ◌+◌, ◌*◌, ◌-◌, ◌≤◌, ◌<◌, length};
ghost use Rattle.basics.specs.Chunk.{chunk_at};
ghost use Rattle.item.specs.Offsets.{at_mark, smallest_item, payload_limit};
ghost use Rattle.item.specs.Little.{le16, le32};
ghost use Rattle.item.specs.Head.{head_tests};
ghost use Rattle.item.specs.Layout.{count_tests, body_tests, layout_of, payload_of, key_of, previous_of, dependency_of, hashed_of};
ghost use Rattle.item.specs.Id.{id_of};

use answers::Refusal;

// Where the fields of an item stand; the dependency ids, in an item without payload.
pub const AT_KIND: usize = 4;

pub const AT_MARK: usize = 6;

pub const AT_KEY: usize = 7;

pub const AT_PREVIOUS: usize = 39;

pub const AT_INDEX: usize = 71;

pub const AT_SIZE: usize = 75;

pub const AT_PAYLOAD: usize = 79;

pub const AT_DEPENDENCIES: usize = 81;

// The smallest body and item; the largest payload, length and item, and the most dependencies.
pub const SMALLEST_BODY: usize = 139;

pub const SMALLEST_ITEM: usize = 145;

pub const PAYLOAD_LIMIT: usize = 4096;

pub const COUNT_LIMIT: usize = 63;

pub const LENGTH_LIMIT: usize = 6253;

pub const LARGEST_ITEM: usize = 6257;

// Places and numbers of a sound item: the mark byte, the index, where the payload starts and its length, where the dependency ids
// start and how many they are.
#[derive(Clone, Copy)]
pub struct Fields {
    pub mark: u8,
    pub index: usize,
    pub payload: usize,
    pub size: usize,
    pub dependencies: usize,
    pub count: usize,
}

// The number that two bytes from a place on say.
pub fn read16(s: &[u8], at: usize) -> usize
    requires { at + 2 ≤ length s.now }
    ensures { (result ≡ le16 s.now at) × (result < 65536) }
{
    usize::from(s[at]) + 256 * usize::from(s[at + 1])
}

// The number that four bytes from a place on say.
pub fn read32(s: &[u8], at: usize) -> usize
    requires { at + 4 ≤ length s.now }
    ensures { (result ≡ le32 s.now at) × (result < 4294967296) }
{
    read16(s, at) + 65536 * read16(s, at + 2)
}

// The tests from the dependency count on, after a payload of `p` bytes.
fn after_payload(item: &[u8], p: usize) -> Result<Fields, Refusal>
    requires { (p ≤ payload_limit) × (smallest_item + p ≤ length item.now) }
    ensures { result ≡ count_tests p item.now }
{
    let body = item.len() - AT_MARK;
    let count = read16(item, AT_PAYLOAD + p);
    if COUNT_LIMIT < count {
        return Err(Refusal::Size);
    }
    if body < SMALLEST_BODY + p + 32 * count {
        return Err(Refusal::Short);
    }
    if SMALLEST_BODY + p + 32 * count < body {
        return Err(Refusal::Long);
    }
    Ok(Fields {
        mark: item[AT_MARK],
        index: read32(item, AT_INDEX),
        payload: AT_PAYLOAD,
        size: p,
        dependencies: AT_DEPENDENCIES + p,
        count,
    })
}

// The tests on the body.
fn body_layout(item: &[u8]) -> Result<Fields, Refusal>
    requires { at_mark ≤ length item.now }
    ensures { result ≡ body_tests item.now }
{
    let body = item.len() - AT_MARK;
    if body < SMALLEST_BODY {
        return Err(Refusal::Short);
    }
    let size = read32(item, AT_SIZE);
    if PAYLOAD_LIMIT < size {
        return Err(Refusal::Size);
    }
    if body < SMALLEST_BODY + size {
        return Err(Refusal::Short);
    }
    after_payload(item, size)
}

// The tests on the length and the kind of an item, whose length may be `limit` at most; where they pass, the body comes next to be read.
pub fn check_head(item: &[u8], limit: usize, kind: usize) -> Result<(), Refusal>
    ensures { result ≡ head_tests limit kind item.now }
{
    if item.len() < 4 {
        return Err(Refusal::Short);
    }
    let follows = item.len() - 4;
    let length = read32(item, 0);
    if limit < length {
        return Err(Refusal::Size);
    }
    if length < 2 {
        return Err(Refusal::Short);
    }
    if follows < length {
        return Err(Refusal::Short);
    }
    if length < follows {
        return Err(Refusal::Long);
    }
    if read16(item, AT_KIND) != kind {
        return Err(Refusal::Kind);
    }
    Ok(())
}

// What reading an item gives, the tests in the document's order. The mark is handed on as it stands.
pub fn layout_of(item: &[u8]) -> Result<Fields, Refusal>
    ensures { result ≡ layout_of item.now }
{
    check_head(item, LENGTH_LIMIT, 1)?;
    body_layout(item)
}

// The payload as a stretch of the item itself; an empty stretch where the item is refused.
pub fn payload_of(item: &[u8]) -> &[u8]
    ensures { result.now ≡ payload_of item.now }
{
    let Ok(f) = layout_of(item) else {
        return &item[0..0];
    };
    let start = f.payload;
    let end = start + f.size;
    &item[start..end]
}

// The 32 bytes from a place on as a part of the item, fewer where the item ends before.
fn chunk_of(item: &[u8], at: usize) -> &[u8]
    ensures { result.now ≡ chunk_at at item.now }
{
    if item.len() <= at {
        return &item[0..0];
    }
    if item.len() - at < 32 {
        return &item[at..];
    }
    let end = at + 32;
    &item[at..end]
}

// The author key as a part of the item.
pub fn key_of(item: &[u8]) -> &[u8]
    ensures { result.now ≡ key_of item.now }
{
    chunk_of(item, AT_KEY)
}

// The previous id as a part of the item.
pub fn previous_of(item: &[u8]) -> &[u8]
    ensures { result.now ≡ previous_of item.now }
{
    chunk_of(item, AT_PREVIOUS)
}

// The n-th dependency id, from 0 on, as a part of the item that has these fields; fewer bytes where the item ends before.
pub fn dependency_of(item: &[u8], f: Fields, n: usize) -> &[u8]
    ensures { result.now ≡ dependency_of f n item.now }
{
    let start = f.dependencies;
    if item.len() <= start {
        return &item[0..0];
    }
    if (item.len() - start) / 32 < n {
        return &item[0..0];
    }
    chunk_of(item, start + 32 * n)
}

// What the id is taken over: all that follows the mark, as a part of the item; nothing where the item ends before.
fn hashed_of(item: &[u8]) -> &[u8]
    ensures { result.now ≡ hashed_of item.now }
{
    if item.len() <= AT_KEY {
        return &item[0..0];
    }
    &item[AT_KEY..]
}

// The id of an item: SHA-256 over its body without the mark.
pub fn id_of(item: &[u8]) -> [u8; 32]
    ensures { result ≡ id_of item.now }
{
    sha256::digest(hashed_of(item))
}
