// Admission: refusals 2 and 3 (document 01, "Where a call is turned down"), in one pass over the lent words; `threads`, `records` and `area` look at
// the threads, the records and the drain area.
#![tactic(auto)]

ghost use Rattle.std.specs.Prelude.{◌≡◌, ◌≤◌, length};
ghost use Rattle.history.specs.Event.{most_producers};
ghost use Rattle.rules.specs.Sizes.{sizes_in_range, store_words, most_entries, most_records, most_words};
ghost use Rattle.rules.specs.Cell.{reader};
ghost use Rattle.rules.specs.Range.{contents_in_range, threads_in_range, in_range};
ghost use Rattle.rules.specs.Request.{sizes_of};
ghost use Rattle.store.specs.Shape.{sizes};
ghost use Rattle.store.specs.Store.{Room};
ghost use Rattle.admission.specs.Refusal.{Admits};

use area::drain_in_range;
use records::records_in_range;
use store::{Refusal, Shape, drain_at, phase, record_at, size};
use threads::{consumer_in_range, producers_in_range};

// Contents as *open* writes them; the record claimed last; what the scan has read, which goes by the consumer's phase; spare words.
fn contents_in_range(s: &[u32], z: Shape) -> bool
    requires room { Room (sizes z) s.now }
    requires z_value { sizes z ≡ sizes_of s.now }
    ensures { contents_in_range (sizes z) (reader (sizes z) s.now) ≡ result }
{
    let m = z.starts;
    let n = z.records;
    let first = record_at(z, 0);
    let counts = (s[9] <= m) & (s[10] <= m);
    let records = ((1 <= s[7]) & (s[7] <= n)) & (((1 <= s[8]) & (s[8] <= n)) & counts);
    let contents = (s[4] == size::CONTENT_WORDS) & ((s[5] == first) & ((s[6] <= m) & records));
    let spare = (s[13] == 0) & ((s[14] == 0) & (s[15] == 0));
    let scan = s[12] <= u32::from((s[16] == phase::SCAN) | (s[16] == phase::READ_ENTRY));
    contents & (((1 <= s[11]) & (s[11] <= n)) & (scan & spare))
}

// Every word of the contents and of the threads.
fn threads_in_range(s: &[u32], z: Shape) -> bool
    requires room { Room (sizes z) s.now }
    requires z_value { sizes z ≡ sizes_of s.now }
    ensures { threads_in_range (sizes z) (reader (sizes z) s.now) ≡ result }
{
    if !contents_in_range(s, z) {
        return false;
    }
    consumer_in_range(s, z) & producers_in_range(s, z)
}

// Every word is in its range.
fn in_range(s: &[u32], z: Shape) -> bool
    requires room { Room (sizes z) s.now }
    requires z_value { sizes z ≡ sizes_of s.now }
    ensures { in_range (sizes z) (reader (sizes z) s.now) ≡ result }
{
    threads_in_range(s, z) & records_in_range(s, z) & drain_in_range(s, z)
}

// The sizes that words 0 to 3 give.
pub fn shape_of(s: &[u32]) -> Shape
    requires { 4 ≤ length s.now }
    ensures { sizes result ≡ sizes_of s.now }
{
    Shape {
        entries: s[0],
        records: s[1],
        producers: s[2],
        starts: s[3],
    }
}

// B 2 to 64, N 2 to 64, P 1 to 16, M 1 to 1,000,000.
pub fn sizes_in_range(z: Shape) -> bool
    ensures { sizes_in_range (sizes z) ≡ result }
{
    let entries = (2 <= z.entries) & (z.entries <= size::MOST_ENTRIES);
    let records = (2 <= z.records) & (z.records <= size::MOST_RECORDS);
    let producers = (1 <= z.producers) & (z.producers <= size::MOST_PRODUCERS);
    let starts = (1 <= z.starts) & (z.starts <= size::MOST_STARTS);
    entries & records & producers & starts
}

// The words that a store of these sizes takes.
pub fn store_words(z: Shape) -> usize
    requires { (z.entries ≤ most_entries) × (z.records ≤ most_records) × (z.producers ≤ most_producers) }
    ensures { (store_words (sizes z) ≡ result) × (result ≤ most_words) }
{
    (drain_at(z) + size::DRAIN_WORDS) as usize
}

// The sizes of words that are admitted; else the refusal of the first test that fails.
pub fn admit(s: &[u32]) -> Result<Shape, Refusal>
    ensures { Admits s.now result }
{
    if s.len() < size::CONTENT_WORDS as usize {
        return Err(Refusal::Short);
    }
    let z = shape_of(s);
    if !sizes_in_range(z) {
        return Err(Refusal::OutOfRange);
    }
    if s.len() < store_words(z) {
        return Err(Refusal::Short);
    }
    if !in_range(s, z) {
        return Err(Refusal::OutOfRange);
    }
    Ok(z)
}
