// The range of every word of the records (document 01, "Where a call is turned down"): most of the words that admission looks at.
#![tactic(auto)]

ghost use Rattle.std.specs.Prelude.{◌≡◌, ◌&&◌, [], ◌∷◌, ◌+◌, ◌*◌, ◌≤◌, ◌<◌, length};
ghost use Rattle.rules.specs.Sizes.{record_words, most_entries, most_place};
ghost use Rattle.rules.specs.Cell.{reader};
ghost use Rattle.rules.specs.Range.{every, record_in_range, records_in_range};
ghost use Rattle.store.specs.Shape.{sizes};
ghost use Rattle.store.specs.Store.{Room};
ghost use Rattle.records.specs.Rows.{at_most, from};
ghost use Rattle.records.specs.Bounds.{bounds, word_test, Bounded};

use store::{Shape, record_at, record_words, size, state, usage};

// Any 32-bit number.
pub const ANY: u32 = u32::MAX;

// Writes the most that each word of a record may be to a row that allows any: place, next, prev and use, then state and call
// number of each entry.
fn fill_bounds(b: &mut [u32], z: Shape)
    requires { (z.entries ≤ most_entries) × (record_words (sizes z) ≤ length b.old) }
    ensures { b.new ≡ bounds b.old (sizes z) z.entries }
{
    b[0] = size::MOST_PLACE;
    b[1] = z.records;
    b[2] = z.records;
    b[3] = usage::RETIRED;
    let count = z.entries as usize;
    for i in 0..count {
        b[4 + 3 * i] = state::HANDLED;
        b[5 + 3 * i] = z.starts;
    }
}

// Whether n words from word `at` on, and n from word `other` on, are each at most their bound. This loop runs over every word of
// the records: no branch in it, and each bound is read once for two records.
fn rows_at_most(s: &[u32], at: usize, other: usize, b: &[u32], n: usize) -> bool
    requires { (at + n ≤ length s.now) × (other + n ≤ length s.now) × (n ≤ length b.now) }
    ensures { every n (λ j. word_test s.now b.now at j && word_test s.now b.now other j) ≡ result }
{
    let mut ok = true;
    for j in 0..n {
        let bound = b[j];
        ok = ok & ((s[at + j] <= bound) & (s[other + j] <= bound));
    }
    ok
}

// Every word of records r and q, b their bounds.
fn pair_in_range(s: &[u32], z: Shape, b: &[u32], r: u32, q: u32) -> bool
    requires room { Room (sizes z) s.now }
    requires r_lt_records { (r < z.records) × (q < z.records) × Bounded (sizes z) b.now }
    ensures { (record_in_range (sizes z) (reader (sizes z) s.now) r && record_in_range (sizes z) (reader (sizes z) s.now) q) ≡ result }
{
    let at = record_at(z, r) as usize;
    let other = record_at(z, q) as usize;
    rows_at_most(s, at, other, b, record_words(z) as usize)
}

// Every record, b their bounds: two at a time, the first half beside the second; of an odd number the middle one is looked at
// twice.
fn pairs_in_range(s: &[u32], z: Shape, b: &[u32]) -> bool
    requires room { Room (sizes z) s.now }
    requires bounded { Bounded (sizes z) b.now }
    ensures { records_in_range (sizes z) (reader (sizes z) s.now) ≡ result }
{
    let half = z.records / 2;
    let pairs = z.records - half;
    let mut ok = true;
    for r in 0..pairs {
        ok = ok & pair_in_range(s, z, b, r, r + half);
    }
    ok
}

// Place, next, prev and use of the record at word `at`, n the number of records.
fn parts_in_range(s: &[u32], at: usize, n: u32) -> bool
    requires { at + 4 ≤ length s.now }
    ensures { at_most (from s.now at) 0 (most_place ∷ n ∷ n ∷ 3 ∷ []) ≡ result }
{
    let rest = (s[at + 2] <= n) & (s[at + 3] <= usage::RETIRED);
    (s[at] <= size::MOST_PLACE) & ((s[at + 1] <= n) & rest)
}

// State and call number of so many entries from word `at` on, m the most that a call number may be.
fn entries_in_range(s: &[u32], at: usize, count: usize, m: u32) -> bool
    requires { at + 3 * count ≤ length s.now }
    ensures { every count (λ i. at_most (from s.now (at + 3 * i)) 0 (2 ∷ m ∷ [])) ≡ result }
{
    let mut ok = true;
    for i in 0..count {
        let e = at + 3 * i;
        ok = ok & ((s[e] <= state::HANDLED) & (s[e + 1] <= m));
    }
    ok
}

// Every word of record r, one by one.
fn record_in_range(s: &[u32], z: Shape, r: u32) -> bool
    requires room { Room (sizes z) s.now }
    requires r_lt_records { r < z.records }
    ensures { record_in_range (sizes z) (reader (sizes z) s.now) r ≡ result }
{
    let at = record_at(z, r) as usize;
    let count = z.entries as usize;
    let n = z.records;
    let m = z.starts;
    parts_in_range(s, at, n) & entries_in_range(s, at + 4, count, m)
}

// Every record, one by one.
fn each_in_range(s: &[u32], z: Shape) -> bool
    requires { Room (sizes z) s.now }
    ensures { records_in_range (sizes z) (reader (sizes z) s.now) ≡ result }
{
    let mut ok = true;
    for r in 0..z.records {
        ok = ok & record_in_range(s, z, r);
    }
    ok
}

// Every record: with few entries one by one, since a row of bounds costs more than it saves.
pub fn records_in_range(s: &[u32], z: Shape) -> bool
    requires { Room (sizes z) s.now }
    ensures { records_in_range (sizes z) (reader (sizes z) s.now) ≡ result }
{
    if z.entries <= 4 {
        return each_in_range(s, z);
    }
    let mut b = [ANY; size::MOST_RECORD_WORDS];
    fill_bounds(&mut b, z);
    pairs_in_range(s, z, &b)
}
