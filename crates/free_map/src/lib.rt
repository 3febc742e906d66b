// The free records as the digits of one word (document 02, U6 and U7). The words are admitted.
#![tactic(auto)]

ghost use Rattle.std.specs.Prelude.{◌≡◌, ◌≤◌, ◌<◌};
ghost use Rattle.rules.specs.Cell.{reader};
ghost use Rattle.rules.specs.Free.{free};
ghost use Rattle.store.specs.Shape.{sizes};
ghost use Rattle.store.specs.Store.{Admitted};
ghost use Rattle.store.specs.View.{size, cells};
ghost use Rattle.bits.specs.Bitmap.{digit, bitmap};
ghost use Rattle.free_map.specs.Keeping.{least_places, place_below};
ghost use Rattle.free_map.specs.Kept.{Keeps, KeepsToo};
ghost use Rattle.free_map.specs.Walk.{first_word};

use store::{Shape, Store, record_at, record_words, size, usage, word};

// The retired records that producers hold: the greatest place of them, 0 where there are none, and the records as digits of a word, record 0
// the lowest.
#[derive(Clone, Copy)]
struct Kept {
    place: u32,
    records: u64,
}

// What is kept with the record that a link names, if that is retired.
fn with_link(s: &[u32], z: Shape, kept: Kept, link: u32) -> Kept
    requires admitted { Admitted (sizes z) s.now }
    requires link_le_records { link ≤ z.records }
    ensures { KeepsToo (sizes z) (reader (sizes z) s.now) link kept result }
{
    if link == 0 {
        return kept;
    }
    let r = link - 1;
    let at = record_at(z, r) as usize;
    if s[at + word::USE as usize] != usage::RETIRED {
        return kept;
    }
    let place = s[at];
    Kept {
        place: kept.place.max(place),
        records: kept.records | 1 << r,
    }
}

// What producers 1 to P keep, by the records that they hold and those that they have claimed.
fn kept_records(store: &Store) -> Kept
    ensures { Keeps (size store.now) (cells store.now) store.now.shape.producers result }
{
    let mut kept = Kept {
        place: 0,
        records: 0,
    };
    for t in 0..store.shape.producers {
        let p = store.producer(t + 1);
        kept = with_link(store.words, store.shape, kept, p.held);
        kept = with_link(store.words, store.shape, kept, p.claimed);
    }
    kept
}

// Whether record r, whose first word is at `at`, is not free by use and place, as a digit: its place is below the least one of its use.
fn place_below(s: &[u32], z: Shape, least: &[u32; 4], r: u32, at: usize) -> u64
    requires admitted { Admitted (sizes z) s.now }
    requires r_lt_records { (r < z.records) × (at ≡ first_word (sizes z) r) }
    ensures { (digit (place_below (reader (sizes z) s.now) least.now r) ≡ result) × (result ≤ 1) }
{
    let used = s[at + word::USE as usize] as usize;
    u64::from(s[at] < least[used])
}

// The records that are not free by use and place, as digits, record 0 the lowest: any place will do of use 0, none of a claimed or linked one,
// and a retired one is kept below the place `kept`. The loop goes over every record, from the last, two at a time and without a
// branch (one at a time, it took 97 ns in place of 80 for 64 records and 16 producers).
fn places_below(s: &[u32], z: Shape, kept: u32) -> u64
    requires { Admitted (sizes z) s.now }
    ensures { bitmap 0 z.records (place_below (reader (sizes z) s.now) (least_places kept)) ≡ result }
{
    // No place is as great as u32::MAX.
    let least = [0, u32::MAX, u32::MAX, kept];
    let words = record_words(z) as usize;
    let mut map: u64 = 0;
    let mut at = record_at(z, z.records) as usize;
    let odd = z.records % 2;
    for pair in (0..z.records / 2).rev() {
        let r = odd + 2 * pair;
        at -= 2 * words;
        let upper = place_below(s, z, &least, r + 1, at + words);
        map = map * 4 + (upper * 2 + place_below(s, z, &least, r, at));
    }
    if odd == 0 {
        return map;
    }
    map * 2 + place_below(s, z, &least, 0, at - words)
}

// The free records as digits, record 0 the lowest: all but those that are not free by use and place, and the retired ones that are held.
pub fn free_map(store: &Store) -> u64
    ensures { bitmap 0 store.now.shape.records (free (size store.now) (cells store.now)) ≡ result }
{
    let kept = kept_records(store);
    let others = places_below(store.words, store.shape, kept.place) | kept.records;
    let all = u64::MAX >> (size::MOST_RECORDS - store.shape.records);
    all - others
}
