// A history as words in a lent buffer, four for each event: what a call adds to it.
#![tactic(auto)]

ghost use Rattle.std.specs.Prelude.{◌≡◌, [], ◌∷◌, ◌+◌, ◌*◌, ◌≤◌, ◌<◌, length, IfSome};
ghost use Rattle.std.proofs.lemmas.List.Edits.{sets};
ghost use Rattle.history.specs.Event.{History};
ghost use Rattle.rules.specs.Request.{Request};
ghost use Rattle.rules.specs.Play.{events, end_of_enqueue, thread_of, value_of};
ghost use Rattle.store.specs.Outcome.{response};
ghost use Rattle.events.specs.Events.{first_word, start_found, noted_events, Records};

use store::{Refusal, Reply};

// What a call adds to the history: an enqueue's start or its end, a dequeue's start, its item or that it is empty.
#[derive(Clone, Copy)]
pub enum Noted {
    Started(u32, u32, u32),
    Ended(u32),
    DequeueStarted,
    Item(u32, u32),
    Empty,
}

// An event's first word.
#[derive(Clone, Copy)]
enum Kind {
    EnqueueStarted = 1,
    EnqueueEnded = 2,
    DequeueStarted = 3,
    GaveItem = 4,
    GaveEmpty = 5,
}

impl From<Kind> for u32 {
    ghost from_gives = { λ kind word. word ≡ first_word kind };

    fn from(kind: Kind) -> u32 {
        kind as u32
    }
}

// What a call of thread t with value v adds, by its reply, if anything.
pub fn note(t: u32, v: u32, reply: Result<Reply, Refusal>) -> Option<Noted>
    ensures { (q : Request) → thread_of q ≡ t → value_of q ≡ v → (h : History) → noted_events result h ≡ events q h (response reply) }
{
    match reply {
        Err(_) => None,
        Ok(Reply::Done) => Some(Noted::DequeueStarted),
        Ok(Reply::Started(n)) => Some(Noted::Started(t, n, v)),
        Ok(Reply::Going) => None,
        Ok(Reply::Ended) => Some(Noted::Ended(t)),
        Ok(Reply::Empty) => Some(Noted::Empty),
        Ok(Reply::Item(n, v)) => Some(Noted::Item(n, v)),
        Ok(Reply::Drained(_)) => None,
    }
}

// The last start of thread t among the first k events, if there is one.
fn find_start(history: &[u32], k: usize, t: u32) -> Option<usize>
    requires { k * 4 ≤ length history.now }
    ensures found { result ≡ start_found history.now t k }
    ensures below { IfSome result (λ i. i < k) }
{
    for i in (0..k).rev() {
        if (history[i * 4] == Kind::EnqueueStarted as u32) & (history[i * 4 + 1] == t) {
            return Some(i);
        }
    }
    None
}

// Adds an event of four words after k events, and answers how many there are then.
fn add_event(
    history: &mut [u32],
    k: usize,
    kind: Kind,
    thread: u32,
    number: u32,
    value: u32,
) -> usize
    requires { k * 4 + 4 ≤ length history.old }
    ensures { (result ≡ k + 1) × (history.new ≡ sets history.old (k * 4) (first_word kind ∷ thread ∷ number ∷ value ∷ [])) }
{
    history[k * 4..k * 4 + 4].copy_from_slice(&[u32::from(kind), thread, number, value]);
    k + 1
}

// Adds the end of thread t's last enqueue, which repeats its start's words.
fn add_end(history: &mut [u32], k: usize, t: u32) -> usize
    requires { k * 4 + 4 ≤ length history.old }
    ensures { Records (end_of_enqueue t) history.old k history.new result }
{
    match find_start(history, k, t) {
        None => k,
        Some(i) => {
            let number = history[i * 4 + 2];
            let value = history[i * 4 + 3];
            add_event(history, k, Kind::EnqueueEnded, t, number, value)
        }
    }
}

// Adds what a call adds, if anything.
pub fn add_noted(history: &mut [u32], k: usize, noted: Option<Noted>) -> usize
    requires { k * 4 + 4 ≤ length history.old }
    ensures { Records (noted_events noted) history.old k history.new result }
{
    let Some(noted) = noted else {
        return k;
    };
    match noted {
        Noted::Started(t, n, v) => add_event(history, k, Kind::EnqueueStarted, t, n, v),
        Noted::Ended(t) => add_end(history, k, t),
        Noted::DequeueStarted => add_event(history, k, Kind::DequeueStarted, 0, 0, 0),
        Noted::Item(n, v) => add_event(history, k, Kind::GaveItem, 0, n, v),
        Noted::Empty => add_event(history, k, Kind::GaveEmpty, 0, 0, 0),
    }
}
