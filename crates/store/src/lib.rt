// The lent words of a store by name: what admitted words hold is read through a `Store` (view.rt), and words are stored by the functions here (document
// 01, "Store").
#![tactic(auto)]

ghost use Rattle.std.specs.Prelude.{◌≡◌, cond, ◌+◌, ◌*◌, ◌<◌, ◌≤◌, length, set, replicate};
ghost use Rattle.std.proofs.lemmas.List.Edits.{sets};
ghost use Rattle.history.specs.Event.{most_producers};
ghost use Rattle.rules.specs.Sizes.{first_record, record_words, drain_words, first_drain, store_words, most_entries, most_records, most_drained, most_place, most_words};
ghost use Rattle.rules.specs.Cell.{reader, place, used, write, ◌:=◌, content, last_claimed, all_handled, consumer, producer, part, entry, drain, head_record, head_position, cursor_record, cursor_position, found_record, found_position, item_number, item_value, pair_number, pair_value, step_count, clear_consumer, clear_producer, clear_drain, wipe};
ghost use Rattle.rules.specs.Address.{There};
ghost use Rattle.store.specs.Shape.{sizes};
ghost use Rattle.store.specs.Caps.{most_record_words};
ghost use Rattle.store.specs.Refusal.{refusal_number, Needed};
ghost use Rattle.store.specs.Store.{Room, Admitted, Reads, Holds};
ghost use Rattle.store.specs.Rows.{ReadsContents, ReadsConsumer, ReadsProducer, ReadsDrain};
ghost use Rattle.store.specs.Slot.{Slotted, Found};

pub mod phase;
pub mod size;
pub mod state;
pub mod usage;
pub mod view;
pub mod word;

pub use view::Store;

// The sizes of a store: entries in a record (B), records (N), producers (P), enqueue starts allowed (M).
// Stays: the limits are clauses of the sums below, each those that it needs; a ghost field here would ask them of *open*, which takes any sizes.
#[derive(Clone, Copy)]
pub struct Shape {
    pub entries: u32,
    pub records: u32,
    pub producers: u32,
    pub starts: u32,
}

// Why a call is turned down (document 01, "Where a call is turned down"; document 02, U5), by the number of the table.
#[derive(Clone, Copy, PartialEq, Eq)]
pub enum Refusal {
    // Of open: the sizes are outside their limits.
    Sizes = 1,
    // The store has too few words.
    Short = 2,
    // A word is out of its range.
    OutOfRange = 3,
    // There is no such producer, or thread.
    NoThread = 4,
    // The thread has a call under way.
    Busy = 5,
    // All enqueue starts are used.
    NoStartLeft = 6,
    // The thread is idle.
    Idle = 7,
    // No record is free.
    NoneFree = 8,
    // A needed link is none, an index leaves the record, or a number would leave its range.
    Broken = 9,
    // A drain's limit is out of its range.
    Limit = 14,
    // The drain's buffer is too short.
    BufferShort = 15,
}

// The number of a refusal, for C and for the program's lines.
impl From<Refusal> for u32 {
    ghost from_gives = { λ refusal number. number ≡ refusal_number refusal };

    fn from(refusal: Refusal) -> u32 {
        refusal as u32
    }
}

// What an accepted call replies.
#[derive(Clone, Copy)]
pub enum Reply {
    Done,
    Started(u32),
    Going,
    Ended,
    Empty,
    Item(u32, u32),
    // How many items; they are in the lent buffer.
    Drained(u32),
}

// A reply with the number of accepted steps of its call so far.
#[derive(Clone, Copy)]
pub struct Counted {
    pub reply: Reply,
    pub steps: u32,
}

// Words 6 to 10 of the contents: the queue's two ends, and the enqueue starts.
#[derive(Clone, Copy)]
pub struct Contents {
    pub tail: u32,
    pub tail_record: u32,
    pub head_record: u32,
    pub head_position: u32,
    pub starts: u32,
}

// The consumer's words.
#[derive(Clone, Copy)]
pub struct Consumer {
    pub phase: u32,
    pub cursor_record: u32,
    pub cursor_position: u32,
    pub found_record: u32,
    pub found_position: u32,
    pub item_call: u32,
    pub item_value: u32,
}

// A producer's words.
#[derive(Clone, Copy)]
pub struct Producer {
    pub phase: u32,
    pub call: u32,
    pub value: u32,
    pub position: u32,
    pub held: u32,
    pub claimed: u32,
    pub backed: u32,
}

// The drain area's words before its pairs.
#[derive(Clone, Copy)]
pub struct Drain {
    pub limit: u32,
    pub count: u32,
}

// Where a position stands in the record that a link names: at its end, or at an index of it.
#[derive(Clone, Copy)]
pub enum Slot {
    End { record: u32 },
    At { record: u32, index: u32 },
}

// An entry of a record, by its index.
#[derive(Clone, Copy)]
pub struct Located {
    pub record: u32,
    pub index: u32,
}

// One number or the other.
// Stays: where an `if` expression joins before a later call or return, the check knows the value by its cases alone, and each answer after it (five
// in `area`) has to take the cases again; a function's clause is known as it stands.
pub fn select(test: bool, yes: u32, no: u32) -> u32
    ensures { result ≡ cond test yes no }
{
    if test { yes } else { no }
}

// The words of a record: place, next, prev and use, and three for each entry.
pub fn record_words(z: Shape) -> u32
    requires { z.entries ≤ most_entries }
    ensures { (result ≡ record_words (sizes z)) × (result ≤ most_record_words) }
{
    3 * z.entries + 4
}

// The first word of record r, or of what follows the last.
pub fn record_at(z: Shape, r: u32) -> u32
    requires { (z.entries ≤ most_entries) × (z.producers ≤ most_producers) × (r ≤ most_records) }
    ensures { (result ≡ first_record (sizes z) + r * record_words (sizes z)) × (result + drain_words ≤ most_words) }
{
    size::CONTENT_WORDS + size::THREAD_WORDS * (z.producers + 1) + r * record_words(z)
}

// The first word of the drain area, behind the records.
pub fn drain_at(z: Shape) -> u32
    requires { (z.entries ≤ most_entries) × (z.records ≤ most_records) × (z.producers ≤ most_producers) }
    ensures { (result ≡ first_drain (sizes z)) × (result + drain_words ≤ most_words) }
{
    record_at(z, z.records)
}

fn put_word(s: &mut [u32], z: Shape, at: u32, v: u32)
    requires room { Room (sizes z) s.old }
    requires at_bound { at < store_words (sizes z) }
    ensures { s.new ≡ set s.old at v }
{
    s[at as usize] = v;
}

// Two words, one after the other.
fn put_pair(s: &mut [u32], z: Shape, at: u32, v: u32, w: u32)
    requires room { Room (sizes z) s.old }
    requires at_bound { at + 1 < store_words (sizes z) }
    ensures { s.new ≡ set (set s.old at v) (at + 1) w }
{
    let i = at as usize;
    s[i] = v;
    s[i + 1] = w;
}

// Stays: this function and those below are one line each over put_word or put_pair; each has an address and a cell of its own, so that one for all would
// take both as parameters and say no more.
pub fn put_content(s: &mut [u32], z: Shape, k: u32, v: u32)
    requires room { Room (sizes z) s.old }
    requires there { There (sizes z) (content k) }
    ensures { s.new ≡ write (sizes z) s.old (content k := v) }
{
    put_word(s, z, k, v);
}

// The head, a link and a position.
pub fn put_head(s: &mut [u32], z: Shape, link: u32, position: u32)
    requires { Room (sizes z) s.old }
    ensures { s.new ≡ write (sizes z) (write (sizes z) s.old (head_record := link)) (head_position := position) }
{
    put_pair(s, z, word::HEAD_RECORD, link, position);
}

pub fn put_last_claimed(s: &mut [u32], z: Shape, link: u32)
    requires { Room (sizes z) s.old }
    ensures { s.new ≡ write (sizes z) s.old (last_claimed := link) }
{
    put_word(s, z, word::LAST_CLAIMED, link);
}

pub fn put_all_handled(s: &mut [u32], z: Shape, v: u32)
    requires { Room (sizes z) s.old }
    ensures { s.new ≡ write (sizes z) s.old (all_handled := v) }
{
    put_word(s, z, word::ALL_HANDLED, v);
}

pub fn put_consumer(s: &mut [u32], z: Shape, k: u32, v: u32)
    requires room { Room (sizes z) s.old }
    requires there { There (sizes z) (consumer k) }
    ensures { s.new ≡ write (sizes z) s.old (consumer k := v) }
{
    put_word(s, z, size::CONTENT_WORDS + k, v);
}

// The cursor, a link and a position, and the entry found.
pub fn put_cursor(s: &mut [u32], z: Shape, link: u32, position: u32)
    requires { Room (sizes z) s.old }
    ensures { s.new ≡ write (sizes z) (write (sizes z) s.old (cursor_record := link)) (cursor_position := position) }
{
    let at = size::CONTENT_WORDS + word::CURSOR_RECORD;
    put_pair(s, z, at, link, position);
}

pub fn put_found(s: &mut [u32], z: Shape, link: u32, position: u32)
    requires { Room (sizes z) s.old }
    ensures { s.new ≡ write (sizes z) (write (sizes z) s.old (found_record := link)) (found_position := position) }
{
    let at = size::CONTENT_WORDS + word::FOUND_RECORD;
    put_pair(s, z, at, link, position);
}

// The item read from it.
pub fn put_item(s: &mut [u32], z: Shape, number: u32, value: u32)
    requires { Room (sizes z) s.old }
    ensures { s.new ≡ write (sizes z) (write (sizes z) s.old (item_number := number)) (item_value := value) }
{
    let at = size::CONTENT_WORDS + word::ITEM_CALL;
    put_pair(s, z, at, number, value);
}

pub fn put_producer(s: &mut [u32], z: Shape, t: u32, k: u32, v: u32)
    requires room { Room (sizes z) s.old }
    requires there { There (sizes z) (producer t k) }
    ensures { s.new ≡ write (sizes z) s.old (producer t k := v) }
{
    put_word(s, z, size::CONTENT_WORDS + size::THREAD_WORDS * t + k, v);
}

pub fn put_step_count(s: &mut [u32], z: Shape, t: u32, v: u32)
    requires room { Room (sizes z) s.old }
    requires t_le_producers { t ≤ z.producers }
    ensures { s.new ≡ write (sizes z) s.old (step_count t := v) }
{
    let at = size::CONTENT_WORDS + size::THREAD_WORDS * t + word::STEPS;
    put_word(s, z, at, v);
}

fn put_record_word(s: &mut [u32], z: Shape, r: u32, j: u32, v: u32)
    requires room { Room (sizes z) s.old }
    requires r_lt_records { (r < z.records) × (j < record_words (sizes z)) }
    ensures { s.new ≡ set s.old (first_record (sizes z) + r * record_words (sizes z) + j) v }
{
    put_word(s, z, record_at(z, r) + j, v);
}

pub fn put_part(s: &mut [u32], z: Shape, r: u32, k: u32, v: u32)
    requires room { Room (sizes z) s.old }
    requires there { There (sizes z) (part r k) }
    ensures { s.new ≡ write (sizes z) s.old (part r k := v) }
{
    put_record_word(s, z, r, k, v);
}

pub fn put_use(s: &mut [u32], z: Shape, r: u32, v: u32)
    requires room { Room (sizes z) s.old }
    requires r_lt_records { r < z.records }
    ensures { s.new ≡ write (sizes z) s.old (used r := v) }
{
    put_part(s, z, r, word::USE, v);
}

pub fn put_entry(s: &mut [u32], z: Shape, r: u32, i: u32, k: u32, v: u32)
    requires room { Room (sizes z) s.old }
    requires there { There (sizes z) (entry r i k) }
    ensures { s.new ≡ write (sizes z) s.old (entry r i k := v) }
{
    put_record_word(s, z, r, 4 + 3 * i + k, v);
}

pub fn put_drain(s: &mut [u32], z: Shape, k: u32, v: u32)
    requires room { Room (sizes z) s.old }
    requires there { There (sizes z) (drain k) }
    ensures { s.new ≡ write (sizes z) s.old (drain k := v) }
{
    put_word(s, z, drain_at(z) + k, v);
}

// Pair i of the drain area: call number and value of an item.
pub fn keep_pair(s: &mut [u32], z: Shape, i: u32, number: u32, value: u32)
    requires room { Room (sizes z) s.old }
    requires i_lt_most_drained { i < most_drained }
    ensures { s.new ≡ write (sizes z) (write (sizes z) s.old (pair_number i := number)) (pair_value i := value) }
{
    let at = drain_at(z) + word::PAIRS + 2 * i;
    put_pair(s, z, at, number, value);
}

// Zero into n words from word `at` on.
pub fn clear(s: &mut [u32], at: u32, n: u32)
    requires { at + n ≤ length s.old }
    ensures { s.new ≡ sets s.old at (replicate n 0) }
{
    let from = at as usize;
    let to = from + n as usize;
    s[from..to].fill(0);
}

// Zero into the eight words of the consumer, of producer t, into every word of record r, into every word of the drain area.
pub fn clear_consumer(s: &mut [u32], z: Shape)
    requires { Room (sizes z) s.old }
    ensures { s.new ≡ write (sizes z) s.old clear_consumer }
{
    clear(s, size::CONTENT_WORDS, size::THREAD_WORDS);
}

pub fn clear_producer(s: &mut [u32], z: Shape, t: u32)
    requires room { Room (sizes z) s.old }
    requires t_le_producers { t ≤ z.producers }
    ensures { s.new ≡ write (sizes z) s.old (clear_producer t) }
{
    let at = size::CONTENT_WORDS + size::THREAD_WORDS * t;
    clear(s, at, size::THREAD_WORDS);
}

pub fn wipe_record(s: &mut [u32], z: Shape, r: u32)
    requires room { Room (sizes z) s.old }
    requires r_lt_records { r < z.records }
    ensures { s.new ≡ write (sizes z) s.old (wipe r) }
{
    clear(s, record_at(z, r), record_words(z));
}

pub fn clear_drain(s: &mut [u32], z: Shape)
    requires { Room (sizes z) s.old }
    ensures { s.new ≡ write (sizes z) s.old clear_drain }
{
    clear(s, drain_at(z), size::DRAIN_WORDS);
}

// The record that a needed link names; refusal 9 where it is none.
pub fn needed(link: u32) -> Result<u32, Refusal>
    ensures { Needed link result }
{
    if link == 0 {
        return Err(Refusal::Broken);
    }
    Ok(link - 1)
}
