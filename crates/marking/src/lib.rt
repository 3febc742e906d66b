// The verdict's pass over the calls of a history: whether each dequeue's answer was in order, the mark that is left, the items given,
// and where each was found.
#![tactic(auto)]

ghost use Rattle.std.specs.Prelude.{◌≡◌, ◌≢◌, [], ◌+◌, ◌≤◌, ◌<◌, length};
ghost use Rattle.history.specs.Form.{most_events};
ghost use Rattle.reading.specs.Table.{thread_at, end_at, answer_at};
ghost use Rattle.marking.specs.Marks.{Numbered, Found, Given, fair_at, Moves, Marks};

use reading::{ANSWER, END, MEMORY, MOST_EVENTS, START, THREAD, VALUE, scan};

// How far the verdict's pass has come: the mark, and the place where the next item is looked for first.
#[derive(Clone, Copy)]
struct Progress {
    mark: u32,
    hint: usize,
}

// Where a number stands among those of the calls: it is looked for from the hint on, then before it.
fn position(m: &[u32; MEMORY], hint: usize, c: usize, number: u32) -> Option<usize>
    requires { (hint ≤ c) × (c ≤ most_events) }
    ensures { Found m.now c number result }
{
    match scan(m, hint, c, number) {
        Some(i) => Some(i),
        // Stays: `or_else` was tried, and nothing that can be cited says what its closure answered.
        None => scan(m, 0, hint, number),
    }
}

// Whether enqueue i may be the item of dequeue j: the same value, not given before, started before j ended, not ended before
// the mark.
fn fair(m: &[u32; MEMORY], flags: &[bool; MOST_EVENTS], i: usize, j: usize, mark: u32) -> bool
    requires { (i < most_events) × (j < most_events) }
    ensures { result ≡ fair_at m.now flags.now i j mark }
{
    let end = m[END + i];
    (m[VALUE + i] == m[VALUE + j])
        & !flags[i]
        & (m[START + i] <= m[END + j])
        & ((end == 0) | (mark <= end))
}

// The first enqueue from the hint on whose item was not given, or c: where the next item is looked for first.
fn first_left(m: &[u32; MEMORY], flags: &[bool; MOST_EVENTS], hint: usize, c: usize) -> usize
    requires { (hint ≤ c) × (c ≤ most_events) }
    ensures { result ≤ c }
{
    for j in hint..c {
        if (m[THREAD + j] != 0) & !flags[j] {
            return j;
        }
    }
    c
}

// Dequeue j gives an item: its enqueue's start moves the mark, and its enqueue is noted. None where the pass fails.
fn give(
    m: &[u32; MEMORY],
    flags: &mut [bool; MOST_EVENTS],
    items: &mut [u32; MOST_EVENTS],
    c: usize,
    progress: Progress,
    j: usize,
) -> Option<Progress>
    requires { Numbered m.now c × (c ≤ most_events) × (progress.hint ≤ c) × (j < c) × (length items.old ≡ most_events) × (thread_at m.now j ≡ 0) × (end_at m.now j ≢ 0) × (answer_at m.now j ≢ 0) }
    ensures { Moves m.now c j progress.mark flags.old flags.new items.old items.new result }
{
    let i = position(m, progress.hint, c, m[ANSWER + j])?;
    if !fair(m, flags, i, j, progress.mark) {
        return None;
    }
    flags[i] = true;
    items[j] = i as u32;
    Some(Progress {
        mark: progress.mark.max(m[START + i]),
        hint: first_left(m, flags, progress.hint, c),
    })
}

// Call j moves the mark, if it is a dequeue that has ended. None where the pass fails.
fn pass(
    m: &[u32; MEMORY],
    flags: &mut [bool; MOST_EVENTS],
    items: &mut [u32; MOST_EVENTS],
    c: usize,
    progress: Progress,
    j: usize,
) -> Option<Progress>
    requires { Numbered m.now c × (c ≤ most_events) × (progress.hint ≤ c) × (j < c) × (length items.old ≡ most_events) }
    ensures { Moves m.now c j progress.mark flags.old flags.new items.old items.new result }
{
    if m[THREAD + j] != 0 {
        return Some(progress);
    }
    if m[END + j] == 0 {
        return Some(progress);
    }
    if m[ANSWER + j] == 0 {
        return Some(Progress {
            mark: progress.mark.max(m[START + j]),
            hint: progress.hint,
        });
    }
    give(m, flags, items, c, progress, j)
}

// The pass over all calls, in starting order: the mark that it leaves, or None where it fails. It flags the enqueues whose items were
// given, and notes at each dequeue where its item was found.
pub fn marks(
    m: &[u32; MEMORY],
    flags: &mut [bool; MOST_EVENTS],
    items: &mut [u32; MOST_EVENTS],
    c: usize,
) -> Option<u32>
    requires { Numbered m.now c × (c ≤ most_events) × Given m.now c flags.old [] × (length items.old ≡ most_events) }
    ensures { Marks m.now c flags.new items.new result }
{
    let mut progress = Progress { mark: 0, hint: 0 };
    for j in 0..c {
        progress = pass(m, flags, items, c, progress, j)?;
    }
    Some(progress.mark)
}
