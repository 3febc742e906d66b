// What the program prints, from the bytes that it reads.
#![tactic(auto)]

ghost use Rattle.std.specs.Prelude.{◌≡◌, List, ℕ, ◌+◌, ◌*◌, ◌≤◌, length, replicate};
ghost use Rattle.history.specs.Event.{History};
ghost use Rattle.history.specs.Form.{most_events};
ghost use Rattle.rules.specs.Sizes.{most_words};
ghost use Rattle.store.specs.Outcome.{response, response_after};
ghost use Rattle.store.specs.Shape.{sizes};
ghost use Rattle.text.specs.Wrote.{Wrote};
ghost use Rattle.protocol.specs.Printed.{printed, most_printed};
ghost use Rattle.session.specs.Session.{most_input, reopened, opening, output};
ghost use Rattle.events.specs.Events.{Recorded};
ghost use Rattle.session.specs.Turns.{Turned, Finished, Answers, Ran, words_after, most_output};

use events::{add_noted, note};
use protocol::Line;
use reading::MOST_EVENTS;
use std::ops::ControlFlow;
use std::ops::ControlFlow::{Break, Continue};
use store::size::MOST_WORDS;
use store::{Refusal, Reply, Shape};

// Where the next event and the next printed byte go.
#[derive(Clone, Copy)]
pub struct Place {
    pub events: usize,
    pub bytes: usize,
}

// Prints the line of a reply, a refusal by its number, at a position, and answers the position after it.
fn print_reply(out: &mut [u8], at: usize, reply: Result<Reply, Refusal>, steps: u32) -> usize
    requires { at + most_printed ≤ length out.old }
    ensures { Wrote out.old at (printed (response_after steps reply)) out.new result }
{
    protocol::print_reply(out, at, reply.map_err(u32::from), steps)
}

// Records what a call of thread t with value v adds, and prints its reply.
fn finish(
    history: &mut [u32],
    out: &mut [u8],
    at: Place,
    t: u32,
    v: u32,
    reply: Result<Reply, Refusal>,
    steps: u32,
) -> Place
    requires events_in_bounds { at.events * 4 + 4 ≤ length history.old }
    requires most_printed_in_bounds { at.bytes + most_printed ≤ length out.old }
    ensures { Finished t v reply steps history.old out.old at history.new out.new result }
{
    let noted = note(t, v, reply);
    let events = add_noted(history, at.events, noted);
    let bytes = print_reply(out, at.bytes, reply, steps);
    Place { events, bytes }
}

// How many events there are after an open: none, if it was accepted.
fn reopen(k: usize, reply: Result<Reply, Refusal>) -> usize
    ensures { ((b : List ℕ) (h : History) → Recorded b k h → Recorded b result (reopened (response reply) h)) × (result ≤ k) }
{
    match reply {
        Ok(_) => 0,
        Err(_) => k,
    }
}

fn open_turn(store: &mut [u32], out: &mut [u8], at: Place, z: Shape) -> Place
    requires { at.bytes + most_printed ≤ length out.old }
    ensures { (history : List ℕ) → Turned (opening (sizes z)) store.old history out.old at store.new history out.new result }
{
    let reply = opening::open_store(store, z);
    let events = reopen(at.events, reply);
    let bytes = print_reply(out, at.bytes, reply, 0);
    Place { events, bytes }
}

// Does what a line asks: the run stops, and the output ends at a position; or it goes on.
fn take_turn(
    store: &mut [u32],
    history: &mut [u32],
    out: &mut [u8],
    at: Place,
    line: Option<Line>,
) -> ControlFlow<usize, Place>
    requires events_in_bounds { at.events * 4 + 4 ≤ length history.old }
    requires most_printed_in_bounds { at.bytes + most_printed ≤ length out.old }
    ensures { Answers line store.old history.old out.old at store.new history.new out.new result }
{
    let Some(line) = line else {
        return Break(text::write_bytes(out, at.bytes, b"bad line\n"));
    };
    match line {
        Line::Open(entries, records, producers, starts) => {
            let z = Shape {
                entries,
                records,
                producers,
                starts,
            };
            Continue(open_turn(store, out, at, z))
        }
        Line::Enqueue(t, v) => {
            let reply = engine::start_enqueue(store, t, v);
            Continue(finish(history, out, at, t, v, reply, 1))
        }
        Line::Dequeue => {
            let reply = engine::start_dequeue(store);
            Continue(finish(history, out, at, 0, 0, reply, 0))
        }
        Line::Step(t) => {
            let mut none = [0u32; 0];
            let counted = engine::step(store, t, &mut none, 0);
            match counted {
                Ok(done) => Continue(finish(history, out, at, t, 0, Ok(done.reply), done.steps)),
                Err(refusal) => Continue(finish(history, out, at, t, 0, Err(refusal), 0)),
            }
        }
    }
}

// Runs the lines in turn, from a store and no events.
fn run_lines(
    input: &[u8],
    store: &mut [u32],
    history: &mut [u32],
    out: &mut [u8],
) -> ControlFlow<usize, Place>
    requires input_len_bound { length input.now ≤ most_input }
    requires most_events_in_bounds { most_events * 4 ≤ length history.old }
    requires most_output_in_bounds { most_output ≤ length out.old }
    ensures { Ran input.now store.old out.old store.new history.new out.new result }
{
    let mut at = 0;
    let mut place = Place {
        events: 0,
        bytes: 0,
    };
    // Stays: a line's end says where the next one begins, so no range and no iterator gives the positions.
    while at < input.len() {
        let end = protocol::line_end(input, at);
        let line = protocol::parse_line(&input[at..end]);
        match take_turn(store, history, out, place, line) {
            Break(last) => return Break(last),
            Continue(next) => place = next,
        }
        at = end + 1;
    }
    Continue(place)
}

// Runs the lines of the input from a store of zeros, its own. Never inlined: its room on the stack is given back before the judge takes its own.
#[inline(never)]
fn run_input(input: &[u8], history: &mut [u32], out: &mut [u8]) -> ControlFlow<usize, Place>
    requires input_len_bound { length input.now ≤ most_input }
    requires most_events_in_bounds { most_events * 4 ≤ length history.old }
    requires most_output_in_bounds { most_output ≤ length out.old }
    ensures { Ran input.now (replicate most_words 0) out.old (words_after input.now) history.new out.new result }
{
    let mut store = [0u32; MOST_WORDS];
    run_lines(input, &mut store, history, out)
}

// What the program prints, from the bytes that it reads; the answer is how many bytes. The judge refuses no history of a run
// (specs/Reaching.antt).
#[tactic(auto, using(crate::proofs::Long::output_long))]
pub fn run(input: &[u8], out: &mut [u8; 155_679]) -> usize
    ensures { Wrote out.old 0 (output input.now) out.new result }
{
    if 8192 < input.len() {
        return text::write_bytes(out, 0, b"too long\n");
    }
    let mut history = [0u32; 4 * MOST_EVENTS];
    match run_input(input, &mut history, out) {
        Break(end) => end,
        Continue(at) => {
            let words = at.events * 4;
            recording::print_verdict(&history[..words], out, at.bytes)
        }
    }
}
