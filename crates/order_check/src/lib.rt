// The check of an order (document 02, U9): whether the numbers that it is lent are a linearization of the history that it is lent.
// It takes nothing from the judge.
#![tactic(auto)]

ghost use Rattle.std.specs.Prelude.{◌≡◌, ◌&&◌, ◌||◌, ◌+◌, ◌-◌, ◌≤◌, ◌<◌, leb, eqb, length};
ghost use Rattle.history.specs.Form.{most_events, read};
ghost use Rattle.reading.specs.Refusal.{numbered};
ghost use Rattle.reading.specs.Table.{end_at, calls_in};
ghost use Rattle.order_check.specs.Check.{orderly, keeps, checked};
ghost use Rattle.order_check.specs.Walk.{InRange, admits_at, FrontAt, gives_at, answers_at, Walked, Places, Walks, all_seen};

use reading::{ANSWER, END, MEMORY, MOST_EVENTS, NUMBER, Refusal, START, THREAD, VALUE, read};

// The starting number of the call that started first.
const FIRST: u32 = 1;

// How far the walk has come: the latest start so far, and the place of the order from which the front of the queue is looked for.
#[derive(Clone, Copy)]
struct Progress {
    latest: u32,
    front: usize,
}

// What is checked: the calls in the working memory, and the numbers of an order of them.
#[derive(Clone, Copy)]
struct Listing<'a> {
    memory: &'a [u32; MEMORY],
    calls: usize,
    order: &'a [u32],
    ghost few: { calls ≤ most_events },
}

// Where the call with a starting number stands in the working memory.
fn call_of(number: u32) -> usize
    requires { (1 ≤ number) × (number ≤ most_events) }
    ensures { (result ≡ number - 1) × (result < most_events) }
{
    (number - FIRST) as usize
}

// Whether this is the starting number of one of c calls.
fn is_number(number: u32, c: usize) -> bool
    ensures { result ≡ (leb 1 number && leb number c) }
{
    FIRST <= number && number as usize <= c
}

impl Listing<'_> {
    // Whether call j has not ended before the latest start.
    fn in_time(&self, j: usize, latest: u32) -> bool
        requires { j < most_events }
        ensures { result ≡ (eqb (end_at self.now.memory.now j) 0 || leb latest (end_at self.now.memory.now j)) }
    {
        let end = self.memory[END + j];
        end == 0 || latest <= end
    }

    // Whether this number may come next: a starting number, not seen before, and its call in time.
    fn admits(&self, seen: &[bool; MOST_EVENTS], number: u32, latest: u32) -> bool
        ensures { result ≡ admits_at self.now.memory.now seen.now self.now.calls number latest }
    {
        is_number(number, self.calls)
            && !seen[call_of(number)]
            && self.in_time(call_of(number), latest)
    }

    // The first of places from to k of the order that has an enqueue, or k: the front of the queue.
    // Stays: an Option would be no plainer than k for none, since the next front is looked for behind that place either way.
    fn front_of(&self, from: usize, k: usize) -> usize
        requires { (from ≤ k) × (k ≤ length self.now.order.now) × InRange self.now.order.now k }
        ensures { FrontAt self.now.memory.now self.now.order.now from k result }
    {
        for f in from..k {
            if self.memory[THREAD + call_of(self.order[f])] != 0 {
                return f;
            }
        }
        k
    }

    // Whether dequeue j gave the item of enqueue i: its number and its value.
    fn gives(&self, i: usize, j: usize) -> bool
        requires { (i < most_events) × (j < most_events) }
        ensures { result ≡ gives_at self.now.memory.now i j }
    {
        let m = self.memory;
        m[NUMBER + i] == m[ANSWER + j] && m[VALUE + i] == m[VALUE + j]
    }

    // Whether dequeue j may answer as it did, with the front of the queue at place f of the order, or an empty queue if that is k.
    fn answers(&self, f: usize, k: usize, j: usize) -> bool
        requires { (k ≤ length self.now.order.now) × (j < most_events) × InRange self.now.order.now k }
        ensures { result ≡ answers_at self.now.memory.now self.now.order.now f k j }
    {
        if self.memory[END + j] == 0 {
            return true;
        }
        if self.memory[ANSWER + j] == 0 {
            return k <= f;
        }
        f < k && self.gives(call_of(self.order[f]), j)
    }

    // The number at place k of the order: nothing where it fails a test.
    fn place(&self, seen: &mut [bool; MOST_EVENTS], reached: Progress, k: usize) -> Option<Progress>
        requires { Walked self.now.memory.now self.now.order.now seen.old self.now.calls reached k × (k < length self.now.order.now) }
        ensures { Places self.now.memory.now self.now.order.now seen.new self.now.calls (k + 1) result }
    {
        let number = self.order[k];
        if !self.admits(seen, number, reached.latest) {
            return None;
        }
        let j = call_of(number);
        seen[j] = true;
        let latest = reached.latest.max(self.memory[START + j]);
        if self.memory[THREAD + j] != 0 {
            return Some(Progress { latest, ..reached });
        }
        let f = self.front_of(reached.front, k);
        if !self.answers(f, k, j) {
            return None;
        }
        Some(Progress {
            latest,
            front: f + 1,
        })
    }

    // The walk over the order; it flags the calls that are listed.
    fn walk(&self, seen: &mut [bool; MOST_EVENTS]) -> bool
        requires { Walked self.now.memory.now self.now.order.now seen.old self.now.calls (record { latest = 0; front = 0 }) 0 }
        ensures { Walks self.now.memory.now self.now.order.now seen.new self.now.calls result }
    {
        let mut reached = Progress {
            latest: 0,
            front: 0,
        };
        for k in 0..self.order.len() {
            let Some(further) = self.place(seen, reached, k) else {
                return false;
            };
            reached = further;
        }
        true
    }

    // Whether each of the calls has not ended or is flagged.
    fn all_seen(&self, seen: &[bool; MOST_EVENTS]) -> bool
        ensures { result ≡ all_seen self.now.memory.now seen.now self.now.calls }
    {
        (0..self.calls).all(|j| self.memory[END + j] == 0 || seen[j])
    }

    // Whether the order is a linearization of the calls.
    fn is_order(&self) -> bool
        ensures { result ≡ (orderly (calls_in self.now.memory.now self.now.calls) self.now.order.now && keeps 1 (calls_in self.now.memory.now self.now.calls) self.now.order.now) }
    {
        let mut seen = [false; MOST_EVENTS];
        self.walk(&mut seen) && self.all_seen(&seen)
    }
}

// The check: a history refused with 10, 12 or 13, or whether the order is a linearization of it (specs/Decides.antt).
pub fn check(history: &[u32], order: &[u32]) -> Result<bool, Refusal>
    ensures { numbered result ≡ checked (read most_events history.now) order.now }
{
    let mut m = [0u32; MEMORY];
    let calls = read(history, MOST_EVENTS, &mut m)?;
    let listing = Listing {
        memory: &m,
        calls,
        order,
    };
    Ok(listing.is_order())
}
