// The judge: whether a history of events is explained by a first-in first-out queue (document 01, "Judge"), and by which order of its
// calls (document 02, U9).
#![tactic(auto)]

ghost use Rattle.std.specs.Prelude.{◌≡◌, false, ◌+◌, ◌≤◌, ◌<◌, length, get_or, replicate};
ghost use Rattle.history.specs.Calls.{row};
ghost use Rattle.history.specs.Form.{most_events};
ghost use Rattle.reading.specs.Table.{call_at, calls_in};
ghost use Rattle.judge.specs.Contract.{Judges, JudgesAlone};
ghost use Rattle.judge.specs.Working.{Ready, Explains, entry_in, filled, stays_at, all_stay};

use laying::lay;
use marking::marks;
use reading::{ANSWER, END, MEMORY, MOST_EVENTS, Refusal, START, THREAD, read};

// An entry of the working table, a started call: kind 1 or 3, start event, end event or 0, the item's call number or 0.
#[repr(C)]
#[derive(Clone, Copy)]
pub struct Call {
    pub kind: u32,
    pub start: u32,
    pub end: u32,
    pub answer: u32,
}

// The fields of call j in the working table.
fn kind_of(m: &[u32; MEMORY], j: usize) -> u32
    requires { j < most_events }
    ensures { result ≡ (row (call_at m.now j)).kind }
{
    if m[THREAD + j] == 0 {
        return 3;
    }
    1
}

fn answer_of(m: &[u32; MEMORY], j: usize) -> u32
    requires { j < most_events }
    ensures { result ≡ (row (call_at m.now j)).answer }
{
    if m[THREAD + j] != 0 {
        return 0;
    }
    if m[END + j] == 0 {
        return 0;
    }
    m[ANSWER + j]
}

// The record of call j.
fn entry_of(m: &[u32; MEMORY], j: usize) -> Call
    requires { j < most_events }
    ensures { result ≡ entry_in m.now j }
{
    Call {
        kind: kind_of(m, j),
        start: m[START + j],
        end: m[END + j],
        answer: answer_of(m, j),
    }
}

// Whether call j stays in the queue in order: it is no enqueue, or its item was given, or it has not ended before the mark.
fn stays(call: Call, flags: &[bool; MOST_EVENTS], j: usize, mark: u32) -> bool
    requires { j < most_events }
    ensures { result ≡ stays_at call (get_or flags.now j false) mark }
{
    (call.kind != 1) | (flags[j] | ((call.end == 0) | (mark <= call.end)))
}

// The first n calls go into the table, in starting order.
fn fill_calls(table: &mut [Call], m: &[u32; MEMORY], n: usize)
    requires { (n ≤ length table.old) × (n ≤ most_events) }
    ensures { table.new ≡ filled m.now n table.old }
{
    for j in 0..n {
        table[j] = entry_of(m, j);
    }
}

// The last test of the verdict, over the first n entries of the table.
fn all_stay(table: &[Call], flags: &[bool; MOST_EVENTS], n: usize, mark: u32) -> bool
    requires { (n ≤ length table.now) × (n ≤ most_events) }
    ensures { result ≡ all_stay table.now flags.now mark n }
{
    let mut all = true;
    for j in 0..n {
        all = all & stays(table[j], flags, j, mark);
    }
    all
}

// The verdict on the first c calls: where they are explained their order goes into the buffer, and the answer is how many words it has.
fn explain(m: &[u32; MEMORY], table: &[Call], c: usize, order: &mut [u32]) -> Option<u32>
    requires { Ready m.now table.now c (length order.old) }
    ensures { Explains (calls_in m.now c) order.old order.new result }
{
    let mut flags = [false; MOST_EVENTS];
    let mut items = [0u32; MOST_EVENTS];
    let mark = marks(m, &mut flags, &mut items, c)?;
    let stays = all_stay(table, &flags, c, mark);
    if stays {
        let count = lay(m, &items, c, order) as u32;
        return Some(count);
    }
    None
}

// The judge (document 01, "Judge"; document 02, U9): its reply on a history, one record for each started call in the working table, and
// where the history is explained its order in the buffer, with how many words it has. A refusal leaves both as they were.
pub fn judge(history: &[u32], table: &mut [Call], order: &mut [u32]) -> Result<Option<u32>, Refusal>
    ensures { Judges history.now table.old table.new order.old order.new result }
{
    let mut m = [0u32; MEMORY];
    // The cases of `admit`: words that reading refuses, a buffer too short, a history.
    match read(history, table.len(), &mut m) {
        Err(refusal) => Err(refusal),
        Ok(calls) if order.len() < calls => Err(Refusal::Order),
        Ok(calls) => {
            fill_calls(table, &m, calls);
            Ok(explain(&m, table, calls, order))
        }
    }
}

// The judge with a working table of its own, which has an entry for each of 4,096 events.
pub fn judge_alone(history: &[u32], order: &mut [u32]) -> Result<Option<u32>, Refusal>
    ensures { JudgesAlone history.now order.old order.new result }
{
    let mut table = [Call {
        kind: 0,
        start: 0,
        end: 0,
        answer: 0,
    }; MOST_EVENTS];
    judge(history, &mut table, order)
}
