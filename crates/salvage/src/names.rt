// The ids that an item names: 1 is its previous id, those from 2 on are its dependencies.
ghost use Rattle.std.specs.Prelude.{◌≡◌, ◌≤◌, eqb};
ghost use Rattle.chunks.specs.Lookup.{place_of};
ghost use Rattle.item.specs.Offsets.{count_limit};
ghost use Rattle.salvage.specs.Names.{name_of, lacks_at, names_it, FirstMissing, MissingName};

use item::Fields;

// Whether an id is not among the first n ids.
fn lacks(ids: &[u8], n: usize, id: &[u8]) -> bool
    ensures { result ≡ eqb (place_of ids.now n id.now) 0 }
{
    store::find_id(ids, n, id).is_none()
}

// Whether the id that stands at a place of an item's names is not among the first n ids. An index up to 1 names no previous id.
fn is_missing(item: &[u8], f: Fields, ids: &[u8], n: usize, place: usize) -> bool
    requires { 1 ≤ place }
    ensures { result ≡ lacks_at ids.now n item.now f place }
{
    if place != 1 {
        return lacks(ids, n, item::dependency_of(item, f, place - 2));
    }
    if f.index <= 1 {
        return false;
    }
    lacks(ids, n, item::previous_of(item))
}

// The first place after another of an item's names that is not among the first n ids; one after the last where there is none.
fn first_missing(item: &[u8], f: Fields, ids: &[u8], n: usize, after: usize) -> usize
    requires { (f.count ≤ count_limit) × (after ≤ 64) }
    ensures { FirstMissing ids.now n item.now f after result }
{
    for place in after + 1..f.count + 2 {
        if is_missing(item, f, ids, n, place) {
            return place;
        }
    }
    after.max(f.count + 1) + 1
}

// The first place after another of an item's names that is not among the first n ids; 0 where none is, and where the item has no names.
pub fn missing_name(item: &[u8], ids: &[u8], n: usize, after: usize) -> usize
    requires { after ≤ 64 }
    ensures { MissingName ids.now n item.now after result }
{
    let layout = item::layout_of(item);
    match layout {
        Ok(f) => {
            let place = first_missing(item, f, ids, n, after);
            if f.count + 1 < place {
                return 0;
            }
            place
        }
        Err(_) => 0,
    }
}

// The id that stands at a place of an item's names.
fn name_of(item: &[u8], f: Fields, place: usize) -> &[u8]
    ensures { result.now ≡ name_of item.now f place }
{
    if place <= 1 {
        return item::previous_of(item);
    }
    item::dependency_of(item, f, place - 2)
}

// Whether an item names an id at a place.
pub fn names_it(item: &[u8], place: usize, id: &[u8]) -> bool
    ensures { result ≡ names_it item.now place id.now }
{
    let layout = item::layout_of(item);
    match layout {
        Ok(f) => chunks::same(id, name_of(item, f, place)),
        Err(_) => false,
    }
}
