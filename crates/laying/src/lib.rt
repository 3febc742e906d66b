// The order of the calls of an explained history, laid into a buffer: each enqueue as late as it may stand (crates/criterion/specs/Order.antt).
#![tactic(auto)]

ghost use Rattle.std.specs.Prelude.{◌≡◌, true, List, [], ◌∷◌, ◌++◌, ℕ, ◌+◌, ◌≤◌, ◌<◌, length, take, drop};
ghost use Rattle.history.specs.Form.{most_events};
ghost use Rattle.criterion.specs.Order.{ended_before};
ghost use Rattle.marking.specs.Marks.{Located, enqueue_at};
ghost use Rattle.reading.specs.Table.{calls_in};
ghost use Rattle.laying.specs.Line.{line_size, count_to, gather_to, answers_at, gives_at, item_at, is_left, left_at, Notes, Lined, LaysBack, LaysDequeue, Lays, line_numbers};
ghost use Rattle.laying.specs.Laying.{Laying, Laid};

use reading::{ANSWER, END, MEMORY, MOST_EVENTS, START, THREAD};
use std::marker::Model;

// The most places of a line: two for each call that there may be.
const LINE: usize = 2 * MOST_EVENTS;

// A line of enqueues, by their places among the calls: those of the items given, then those of the items left, each at most one for a call.
// Contracts see the list of the places.
#[derive(Drop)]
struct Line {
    places: [u32; LINE],
    length: usize,
}

impl Model for Line {
    ghost Value = { List ℕ };

    ghost view = { λ line. take line.length line.places };

    ghost invariant = { λ line. line.length ≤ line_size };
}

impl Line {
    fn new() -> Self
        ensures { result ≡ [] }
    {
        Line {
            places: [0; LINE],
            length: 0,
        }
    }

    fn places(&self) -> &[u32]
        ensures { result.now ≡ self.now }
    {
        &self.places[..self.length]
    }

    fn push(&mut self, place: u32)
        requires { length self.old < line_size }
        ensures { self.new ≡ self.old ++ place ∷ [] }
    {
        self.places[self.length] = place;
        self.length += 1;
    }
}

// Whether call j is a dequeue that has ended.
fn answers(m: &[u32; MEMORY], j: usize) -> bool
    requires { j < most_events }
    ensures { result ≡ answers_at m.now j }
{
    m[THREAD + j] == 0 && m[END + j] != 0
}

// Whether call j is a dequeue that gave an item.
fn gives(m: &[u32; MEMORY], j: usize) -> bool
    requires { j < most_events }
    ensures { result ≡ gives_at m.now j }
{
    answers(m, j) && m[ANSWER + j] != 0
}

// How many of the first c calls are dequeues that have ended.
fn count_answers(m: &[u32; MEMORY], c: usize) -> usize
    requires { c ≤ most_events }
    ensures { result ≡ count_to (answers_at m.now) c }
{
    (0..c).filter(|j| answers(m, *j)).count()
}

// The items of the first c calls go into the line, in starting order of the dequeues that gave them, and their enqueues are flagged.
fn line_items(
    m: &[u32; MEMORY],
    items: &[u32; MOST_EVENTS],
    c: usize,
    line: &mut Line,
    flags: &mut [bool; MOST_EVENTS],
)
    requires { (c ≤ most_events) × Located m.now items.now c c × (length line.old ≡ 0) × (length flags.old ≡ most_events) }
    ensures { Notes line.old line.new flags.old flags.new (gather_to (item_at m.now items.now) c) }
{
    for j in 0..c {
        if gives(m, j) {
            line.push(items[j]);
            flags[items[j] as usize] = true;
        }
    }
}

// Whether call i is an ended enqueue that is not flagged.
fn is_left(m: &[u32; MEMORY], flags: &[bool; MOST_EVENTS], i: usize) -> bool
    requires { i < most_events }
    ensures { result ≡ is_left m.now flags.now i }
{
    m[THREAD + i] != 0 && m[END + i] != 0 && !flags[i]
}

// The ended enqueues that are not flagged go into the line, behind those that are in it.
fn line_left(m: &[u32; MEMORY], flags: &[bool; MOST_EVENTS], c: usize, line: &mut Line)
    requires { (c ≤ most_events) × (length line.old ≤ c) }
    ensures { line.new ≡ line.old ++ gather_to (left_at m.now flags.now) c }
{
    for i in 0..c {
        if is_left(m, flags, i) {
            line.push(i as u32);
        }
    }
}

// Whether enqueue i had ended before event start.
fn ended_before(m: &[u32; MEMORY], i: usize, start: u32) -> bool
    requires { i < most_events }
    ensures { result ≡ ended_before start (enqueue_at m.now i) }
{
    let end = m[END + i];
    end != 0 && end < start
}

// What is still to be laid: enqueues of the line, those of items given among them, which stand first, and dequeues that have ended.
#[derive(Clone, Copy)]
struct Rest {
    enqueues: usize,
    given: usize,
    dequeues: usize,
}

// Enqueues of the line, from the last one back, but those of items given, are laid behind the dequeues, up to one that had ended before
// event start.
fn lay_enqueues(m: &[u32; MEMORY], line: &[u32], start: u32, rest: Rest, order: &mut [u32]) -> usize
    requires { Lined m.now line.now most_events rest.enqueues × (rest.given ≤ rest.enqueues) × (rest.enqueues + rest.dequeues ≤ length order.old) }
    ensures { LaysBack m.now line.now start rest.given rest.enqueues rest.dequeues order.old order.new result }
{
    for k in (rest.given..rest.enqueues).rev() {
        let i = line[k];
        if ended_before(m, i as usize, start) {
            return k + 1;
        }
        order[k + rest.dequeues] = i + 1;
    }
    rest.given
}

// Call j, if it is a dequeue that has ended, is laid before the enqueues that had not ended before it started.
fn lay_dequeue(m: &[u32; MEMORY], line: &[u32], j: usize, rest: Rest, order: &mut [u32]) -> Rest
    requires { Lined m.now line.now most_events rest.enqueues × (j < most_events) × (rest.given ≤ rest.enqueues) × (rest.enqueues + rest.dequeues ≤ length order.old) × (answers_at m.now j ≡ true → 1 ≤ rest.dequeues) × (gives_at m.now j ≡ true → 1 ≤ rest.given) }
    ensures { LaysDequeue m.now line.now j rest order.old order.new result }
{
    if !answers(m, j) {
        return rest;
    }
    let enqueues = lay_enqueues(m, line, m[START + j], rest, order);
    let dequeues = rest.dequeues - 1;
    order[enqueues + dequeues] = j as u32 + 1;
    let given = if gives(m, j) {
        rest.given - 1
    } else {
        rest.given
    };
    Rest {
        enqueues,
        given,
        dequeues,
    }
}

// The first c calls, from the last one on: the enqueues of the line, the first t of them of items given, and e dequeues that have ended.
fn lay_line(m: &[u32; MEMORY], line: &[u32], c: usize, t: usize, e: usize, order: &mut [u32])
    requires { Lays m.now line.now c t (length line.now) e (length order.old) }
    ensures { order.new ≡ line_numbers m.now line.now c (length line.now) ++ drop (length line.now + e) order.old }
{
    let mut rest = Rest {
        enqueues: line.len(),
        given: t,
        dequeues: e,
    };
    for j in (0..c).rev() {
        rest = lay_dequeue(m, line, j, rest, order);
    }
    // nothing ended before event 0: all that are left
    lay_enqueues(m, line, 0, rest, order);
}

// Lays the order of the first c calls into the buffer: the starting numbers, from 1. The answer is how many.
pub fn lay(m: &[u32; MEMORY], items: &[u32; MOST_EVENTS], c: usize, order: &mut [u32]) -> usize
    requires { Laying m.now items.now c (length order.old) }
    ensures { Laid (calls_in m.now c) order.old order.new result }
{
    let mut line = Line::new();
    let mut flags = [false; MOST_EVENTS];
    line_items(m, items, c, &mut line, &mut flags);
    let t = line.places().len();
    line_left(m, &flags, c, &mut line);
    let e = count_answers(m, c);
    let places = line.places();
    lay_line(m, places, c, t, e, order);
    places.len() + e
}
