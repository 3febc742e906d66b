// The engine for programs in C: each call of include/intake.h is the library's, with its contract.
#![tactic(auto)]

ghost use Rattle.std.specs.Prelude.{◌≡◌, []};
ghost use Rattle.rules.specs.Request.{start_enqueue, start_dequeue, start_drain, step, open_store};
ghost use Rattle.delivery.specs.Export.{returned, replied, stepped};
ghost use Rattle.engine.specs.Answer.{called};

// *Open* a store of these sizes.
#[unsafe(no_mangle)]
pub extern "C" fn intake_open(
    store: &mut [u32],
    entries: u32,
    records: u32,
    producers: u32,
    starts: u32,
) -> u32
    ensures { record { number = result; store = store.new } ≡ returned (open_store (record { B = entries; N = records; P = producers; M = starts }) store.old) }
{
    engine::intake_open(store, entries, records, producers, starts)
}

// *Start enqueue*; the call number goes to word 0 of the reply, and 1 to word 2: the take is the call's first step.
#[unsafe(no_mangle)]
pub extern "C" fn intake_start_enqueue(
    store: &mut [u32],
    producer: u32,
    value: u32,
    reply: &mut [u32; 4],
) -> u32
    ensures { record { number = result; store = store.new; reply = reply.new } ≡ replied (called (start_enqueue producer value) store.old [] 0) reply.old }
{
    engine::intake_start_enqueue(store, producer, value, reply)
}

// *Start dequeue*.
#[unsafe(no_mangle)]
pub extern "C" fn intake_start_dequeue(store: &mut [u32]) -> u32
    ensures { record { number = result; store = store.new } ≡ returned (called start_dequeue store.old [] 0) }
{
    engine::intake_start_dequeue(store)
}

// *Start drain*.
#[unsafe(no_mangle)]
pub extern "C" fn intake_start_drain(store: &mut [u32], limit: u32) -> u32
    ensures { record { number = result; store = store.new } ≡ returned (called (start_drain limit) store.old [] 0) }
{
    engine::intake_start_drain(store, limit)
}

// *Step*; an item's call number and value go to words 0 and 1 of the reply, how many items a drain handed over to word 0, the accepted steps
// of the call to word 2. Those items go into the buffer from word `from` on.
#[unsafe(no_mangle)]
pub extern "C" fn intake_step(
    store: &mut [u32],
    thread: u32,
    buffer: &mut [u32],
    from: u32,
    reply: &mut [u32; 4],
) -> u32
    ensures { record { number = result; store = store.new; buffer = buffer.new; reply = reply.new } ≡ stepped (called (step thread) store.old buffer.old from) reply.old }
{
    engine::intake_step(store, thread, buffer, from, reply)
}
