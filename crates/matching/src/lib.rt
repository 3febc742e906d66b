// The events of two recordings matched by thread and rank on it (document 02, U10). Each recording is gone over once.
#![tactic(auto)]

ghost use Rattle.std.specs.Prelude.{◌≡◌, cond, ◌+◌, ◌*◌, ◌≤◌, ◌<◌, max, length, replicate};
ghost use Rattle.history.specs.Event.{most_producers};
ghost use Rattle.history.specs.Form.{most_events};
ghost use Rattle.equivalence.specs.Tests.{same_words};
ghost use Rattle.matching.specs.Rows.{events_in, thread_in, row_at, Threaded, ordered};
ghost use Rattle.matching.specs.Events.{words_of};
ghost use Rattle.matching.specs.Match.{Linked, Matches};
ghost use Rattle.matching.specs.Walk.{Met, MetAll};

use reading::{MOST_EVENTS, starts};

// Threads 0 to 16.
const THREADS: usize = 17;

// The words of an event.
#[derive(Clone, Copy, PartialEq, Eq)]
struct Event {
    kind: u32,
    thread: u32,
    number: u32,
    value: u32,
}

// Event k.
fn event_at(words: &[u32], k: usize) -> Event
    requires { 4 * k + 3 < length words.now }
    ensures { words_of result ≡ row_at words.now k }
{
    Event {
        kind: words[4 * k],
        thread: words[4 * k + 1],
        number: words[4 * k + 2],
        value: words[4 * k + 3],
    }
}

// Whether event p of one recording and event k of another are the same four words.
pub fn same_event(first: &[u32], p: usize, second: &[u32], k: usize) -> bool
    requires { (4 * p + 3 < length first.now) × (4 * k + 3 < length second.now) }
    ensures { result ≡ same_words (row_at first.now p) (row_at second.now k) }
{
    event_at(first, p) == event_at(second, k)
}

// The thread of event k.
fn thread_of(words: &[u32], k: usize) -> usize
    requires { Threaded words.now × (k < events_in words.now) }
    ensures { (result ≡ thread_in words.now k) × (result ≤ most_producers) }
{
    words[4 * k + 1] as usize
}

// A recording's events, each linked to the next one of its thread, and each thread's next one.
// Stays: the number of events is the place past the last one, so one bound holds of every link; Option<u32> is no plainer: twice the memory, two cases.
#[derive(Drop)]
struct Chains {
    links: [u32; MOST_EVENTS],
    heads: [u32; THREADS],
}

// Links the events of a recording, from the back, into chains that have none.
fn link(words: &[u32], threads: &mut Chains)
    requires { Threaded words.now × (length threads.old.links ≡ most_events) × (threads.old.heads ≡ replicate 17 (events_in words.now)) }
    ensures { Linked words.now threads.new.links threads.new.heads 0 }
{
    for p in (0..words.len() / 4).rev() {
        let t = thread_of(words, p);
        threads.links[p] = threads.heads[t];
        threads.heads[t] = p as u32;
    }
}

// Goes over the second recording: each event is the next one of its thread in the first, word for word, and gets its place there.
fn meet(
    first: &[u32],
    second: &[u32],
    threads: &mut Chains,
    places: &mut [u32; MOST_EVENTS],
) -> bool
    requires { Threaded first.now × Threaded second.now × Linked first.now threads.old.links threads.old.heads 0 × (length places.old ≡ most_events) }
    ensures { Met first.now second.now threads.new.heads places.new result }
{
    let events = first.len() / 4;
    for k in 0..second.len() / 4 {
        let t = thread_of(second, k);
        let p = threads.heads[t] as usize;
        if p == events {
            return false;
        }
        if !same_event(first, p, second, k) {
            return false;
        }
        threads.heads[t] = threads.links[p];
        places[k] = (p + 1) as u32;
    }
    true
}

// Whether no thread has an event left.
fn all_met(heads: &[u32; THREADS], events: usize) -> bool
    ensures { MetAll heads.now events result }
{
    heads.iter().all(|head| *head as usize == events)
}

// Whether every thread has the same events in the same order in both recordings; then each event of the second gets its place in the first.
pub fn matches(first: &[u32], second: &[u32], places: &mut [u32; MOST_EVENTS]) -> bool
    requires { Threaded first.now × Threaded second.now × (length places.old ≡ most_events) }
    ensures { Matches first.now second.now places.new result }
{
    let events = first.len() / 4;
    let mut threads = Chains {
        links: [0; MOST_EVENTS],
        heads: [events as u32; THREADS],
    };
    link(first, &mut threads);
    meet(first, second, &mut threads, places) && all_met(&threads.heads, events)
}

// Whether each start has a place after those of the ends before it.
pub fn in_order(words: &[u32], places: &[u32; MOST_EVENTS]) -> bool
    requires { events_in words.now ≤ most_events }
    ensures { result ≡ ordered words.now places.now (events_in words.now) }
{
    let mut all = true;
    let mut latest = 0;
    for k in 0..words.len() / 4 {
        let place = places[k];
        if starts(words[4 * k]) {
            all &= latest < place;
        } else {
            latest = latest.max(place);
        }
    }
    all
}
