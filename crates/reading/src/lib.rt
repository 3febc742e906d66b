// A history taken in: refusals 10 to 13, and its calls in the working memory (document 01, "Judge").
#![tactic(auto)]

ghost use Rattle.std.specs.Prelude.{◌≡◌, ◌≢◌, ◌&&◌, ◌||◌, [], ℕ, ◌+◌, ◌*◌, ◌/◌, ◌≤◌, ◌<◌, max, leb, eqb, length};
ghost use Rattle.history.specs.Event.{decode, is_producer};
ghost use Rattle.history.specs.Form.{most_events, read_events, read};
ghost use Rattle.reading.specs.Table.{Table, mark_of};
ghost use Rattle.reading.specs.Refusal.{refusal_number};
ghost use Rattle.reading.specs.Steps.{is_event, start_event, end_event, Starts, begun, ended, repeats_at, First, Fresh, Enters, Stepped, Read};

// The most events of a history.
pub const MOST_EVENTS: usize = 4_096;

// The working memory (specs/Table.antt): a word for each thread, the largest number, the marks, and six columns, each with a word for an event.
pub const MEMORY: usize = 7 * MOST_EVENTS;

const TOP: usize = 17;

const MARKS: usize = 18;

const MARK_WORDS: u32 = 4_078;

pub const START: usize = MOST_EVENTS;

pub const END: usize = 2 * MOST_EVENTS;

pub const ANSWER: usize = 3 * MOST_EVENTS;

pub const THREAD: usize = 4 * MOST_EVENTS;

pub const NUMBER: usize = 5 * MOST_EVENTS;

pub const VALUE: usize = 6 * MOST_EVENTS;

// Why the judge turns words down, each with its number.
#[derive(Clone, Copy, PartialEq, Eq)]
pub enum Refusal {
    // The words are no multiple of 4, or more than 4,096 events.
    Length = 10,
    // The working table has fewer entries than there are events.
    Table = 11,
    // An event is not of the form.
    Form = 12,
    // An event does not follow: a thread already busy, an end without its start, a call number started twice.
    Follows = 13,
    // The order buffer has fewer words than calls were started.
    Order = 16,
}

// The words of an event (document 01, "Judge").
#[derive(Clone, Copy)]
struct Event {
    kind: u32,
    thread: u32,
    number: u32,
    value: u32,
}

impl From<Refusal> for u32 {
    ghost from_gives = { λ refusal number. number ≡ refusal_number refusal };

    fn from(refusal: Refusal) -> u32 {
        refusal as u32
    }
}

// Kinds 1 and 2 have threads 1 to 16 and a call number.
fn of_producer(thread: u32, number: u32) -> bool
    ensures { result ≡ (is_producer thread && leb 1 number) }
{
    (1 <= thread) & (thread <= 16) & (1 <= number)
}

// Kind 4 has thread 0 and a call number.
fn of_item(thread: u32, number: u32) -> bool
    ensures { result ≡ (eqb thread 0 && leb 1 number) }
{
    (thread == 0) & (1 <= number)
}

// Kinds 3 and 5 have zeros.
fn of_zeros(thread: u32, number: u32, value: u32) -> bool
    ensures { result ≡ (eqb thread 0 && eqb number 0 && eqb value 0) }
{
    (thread == 0) & (number == 0) & (value == 0)
}

// Whether the words are an event.
fn formed(event: Event) -> bool
    ensures { result ≡ is_event (decode event.kind event.thread event.number event.value) }
{
    match event.kind {
        1 | 2 => of_producer(event.thread, event.number),
        3 | 5 => of_zeros(event.thread, event.number, event.value),
        4 => of_item(event.thread, event.number),
        _ => false,
    }
}

// Kinds 1 and 3 start a call.
pub fn starts(kind: u32) -> bool
    ensures { result ≡ (eqb kind 1 || eqb kind 3) }
{
    matches!(kind, 1 | 3)
}

// Where a call's number leaves its mark.
fn mark_of(number: u32) -> usize
    ensures { result ≡ mark_of number }
{
    MARKS + (number % MARK_WORDS) as usize
}

// The first call of from..to with this number.
pub fn scan(m: &[u32; MEMORY], from: usize, to: usize, number: u32) -> Option<usize>
    requires { (from ≤ to) × (to ≤ most_events) }
    ensures { First m.now from to number result }
{
    for j in from..to {
        if m[NUMBER + j] == number {
            return Some(j);
        }
    }
    None
}

// Call c starts at event k.
fn begin(m: &mut [u32; MEMORY], c: usize, k: u32, event: Event)
    requires { (c < most_events) × (event.thread ≤ 16) }
    ensures { m.new ≡ begun m.old c k event.thread event.number event.value }
{
    let top = m[TOP].max(event.number);
    let mark = mark_of(event.number);
    m[START + c] = k;
    m[END + c] = 0;
    m[ANSWER + c] = 0;
    m[THREAD + c] = event.thread;
    m[NUMBER + c] = event.number;
    m[VALUE + c] = event.value;
    m[event.thread as usize] = (c + 1) as u32;
    m[TOP] = top;
    m[mark] = 1;
}

// Call i ends at event k.
fn end(m: &mut [u32; MEMORY], i: usize, k: u32, event: Event)
    requires { (i < most_events) × (event.thread ≤ 16) }
    ensures { m.new ≡ ended m.old i k event.thread event.number event.value }
{
    m[END + i] = k;
    m[ANSWER + i] = event.number;
    m[VALUE + i] = event.value;
    m[event.thread as usize] = 0;
}

// Whether no enqueue was started with this number, at once where it is above all of them or its mark is not set. A dequeue has none, 0.
fn fresh(m: &[u32; MEMORY], c: usize, number: u32) -> bool
    requires { Table m.now c × (c ≤ most_events) }
    ensures { Fresh m.now c number result }
{
    if number == 0 {
        return true;
    }
    if m[TOP] < number {
        return true;
    }
    if m[mark_of(number)] == 0 {
        return true;
    }
    scan(m, 0, c, number).is_none()
}

// A call starts at event k, unless its thread is busy or its number was started before.
fn start(m: &mut [u32; MEMORY], c: usize, k: u32, event: Event) -> bool
    requires { Table m.old c × (c < most_events) × Starts event.thread event.number }
    ensures { Enters k (start_event event.thread event.number event.value) m.old c m.new (c + 1) result }
{
    if m[event.thread as usize] != 0 {
        return false;
    }
    if !fresh(m, c, event.number) {
        return false;
    }
    begin(m, c, k, event);
    true
}

// An enqueue's end repeats its number and value.
fn repeats(m: &[u32; MEMORY], i: usize, event: Event) -> bool
    requires { i < most_events }
    ensures { result ≡ repeats_at m.now i event.thread event.number event.value }
{
    (event.thread == 0) | ((m[NUMBER + i] == event.number) & (m[VALUE + i] == event.value))
}

// The call that the thread has under way ends at event k.
fn finish(m: &mut [u32; MEMORY], c: usize, k: u32, event: Event) -> bool
    requires { Table m.old c × (c ≤ most_events) × (event.thread ≤ 16) × (1 ≤ k) }
    ensures { Enters k (end_event event.thread event.number event.value) m.old c m.new c result }
{
    let busy = m[event.thread as usize];
    if busy == 0 {
        return false;
    }
    let i = (busy - 1) as usize;
    if !repeats(m, i, event) {
        return false;
    }
    end(m, i, k, event);
    true
}

// Takes in event k, or refuses it: 12 not of the form, 13 does not follow.
fn step(m: &mut [u32; MEMORY], c: usize, k: u32, event: Event) -> Result<usize, Refusal>
    requires { Table m.old c × (c < most_events) × (1 ≤ k) }
    ensures { Stepped (decode event.kind event.thread event.number event.value) k m.old c m.new result }
{
    if !formed(event) {
        return Err(Refusal::Form);
    }
    if starts(event.kind) {
        if start(m, c, k, event) {
            return Ok(c + 1);
        }
        return Err(Refusal::Follows);
    }
    if finish(m, c, k, event) {
        return Ok(c);
    }
    Err(Refusal::Follows)
}

// Takes in the events of a history, each in turn.
fn read_events(history: &[u32], m: &mut [u32; MEMORY]) -> Result<usize, Refusal>
    requires { Table m.old 0 × (length history.now / 4 ≤ most_events) }
    ensures { Read (read_events [] history.now) (length history.now / 4) m.new result }
{
    let mut c = 0;
    for k in 0..history.len() / 4 {
        let at = 4 * k;
        let event = Event {
            kind: history[at],
            thread: history[at + 1],
            number: history[at + 2],
            value: history[at + 3],
        };
        c = step(m, c, (k + 1) as u32, event)?;
    }
    Ok(c)
}

// Reads a history: refused with 10 or 11 by its length, then each event in turn.
pub fn read(history: &[u32], entries: usize, m: &mut [u32; MEMORY]) -> Result<usize, Refusal>
    requires { Table m.old 0 }
    ensures { Read (read entries history.now) (length history.now / 4) m.new result }
{
    let words = history.len();
    if words % 4 != 0 {
        return Err(Refusal::Length);
    }
    if MOST_EVENTS < words / 4 {
        return Err(Refusal::Length);
    }
    if entries < words / 4 {
        return Err(Refusal::Table);
    }
    read_events(history, m)
}
