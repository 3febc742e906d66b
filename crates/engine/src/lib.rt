// The calls *start enqueue*, *start dequeue*, *start drain* and *step* on the lent words (document 01, "Calls"; document 02, U5), and the C
// interface of all five.
#![tactic(auto)]

ghost use Rattle.std.specs.Prelude.{◌≡◌, []};
ghost use Rattle.rules.specs.Request.{start_enqueue, start_dequeue, start_drain, step, open_store};
ghost use Rattle.store.specs.Outcome.{left, left_with, left_after};
ghost use Rattle.delivery.specs.Export.{returned, replied, stepped};
ghost use Rattle.engine.specs.Answer.{called};

use admission::admit;
use counting::count_step;
use delivery::{deliver, returned_code};
use opening::open_store;
use starting::{begin_dequeue, begin_drain, begin_enqueue};
use store::{Counted, Refusal, Reply, Shape};

// *Start enqueue* (producer, value): admission first, then its own rule. Its reply carries one step, the take.
pub fn start_enqueue(s: &mut [u32], t: u32, v: u32) -> Result<Reply, Refusal>
    ensures { left_with 1 result s.new ≡ called (start_enqueue t v) s.old }
{
    let z = admit(s)?;
    begin_enqueue(s, z, t, v)
}

// *Start dequeue*.
pub fn start_dequeue(s: &mut [u32]) -> Result<Reply, Refusal>
    ensures { left result s.new ≡ called start_dequeue s.old }
{
    let z = admit(s)?;
    begin_dequeue(s, z)
}

// *Start drain* (limit).
pub fn start_drain(s: &mut [u32], limit: u32) -> Result<Reply, Refusal>
    ensures { left result s.new ≡ called (start_drain limit) s.old }
{
    let z = admit(s)?;
    begin_drain(s, z, limit)
}

// *Step* (thread), lent a word buffer; a drain's items go into it from word `from` on.
pub fn step(s: &mut [u32], t: u32, b: &mut [u32], from: u32) -> Result<Counted, Refusal>
    ensures { left_after result s.new b.new from ≡ called (step t) s.old b.old from }
{
    let z = admit(s)?;
    count_step(s, z, t, b, from)
}

// *Open* a store of these sizes.
pub fn intake_open(
    store: &mut [u32],
    entries: u32,
    records: u32,
    producers: u32,
    starts: u32,
) -> u32
    ensures { record { number = result; store = store.new } ≡ returned (open_store (record { B = entries; N = records; P = producers; M = starts }) store.old) }
{
    let z = Shape {
        entries,
        records,
        producers,
        starts,
    };
    returned_code(open_store(store, z))
}

// *Start enqueue*; the call number goes to word 0 of the reply, and 1 to word 2: the take is the call's first step.
pub fn intake_start_enqueue(
    store: &mut [u32],
    producer: u32,
    value: u32,
    reply: &mut [u32; 4],
) -> u32
    ensures { record { number = result; store = store.new; reply = reply.new } ≡ replied (called (start_enqueue producer value) store.old [] 0) reply.old }
{
    let started = start_enqueue(store, producer, value);
    deliver(started.map(|reply| Counted { reply, steps: 1 }), reply)
}

// *Start dequeue*.
pub fn intake_start_dequeue(store: &mut [u32]) -> u32
    ensures { record { number = result; store = store.new } ≡ returned (called start_dequeue store.old [] 0) }
{
    returned_code(start_dequeue(store))
}

// *Start drain*.
pub fn intake_start_drain(store: &mut [u32], limit: u32) -> u32
    ensures { record { number = result; store = store.new } ≡ returned (called (start_drain limit) store.old [] 0) }
{
    returned_code(start_drain(store, limit))
}

// *Step*; an item's call number and value go to words 0 and 1 of the reply, how many items a drain handed over to word 0, the accepted steps
// of the call to word 2. Those items go into the buffer from word `from` on.
pub fn intake_step(
    store: &mut [u32],
    thread: u32,
    buffer: &mut [u32],
    from: u32,
    reply: &mut [u32; 4],
) -> u32
    ensures { record { number = result; store = store.new; buffer = buffer.new; reply = reply.new } ≡ stepped (called (step thread) store.old buffer.old from) reply.old }
{
    deliver(step(store, thread, buffer, from), reply)
}
