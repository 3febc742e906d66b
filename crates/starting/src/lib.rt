// *Start enqueue* (document 01, "Calls"; document 02, U8), *start dequeue* (document 01) and *start drain* (document 02, U5), on admitted words.
#![tactic(auto)]

ghost use Rattle.std.specs.Prelude.{◌≡◌, eqb};
ghost use Rattle.rules.specs.Cell.{reader, consumer_phase};
ghost use Rattle.rules.specs.Request.{starting_enqueue, starting_dequeue, starting_drain};
ghost use Rattle.store.specs.Shape.{sizes};
ghost use Rattle.store.specs.Outcome.{left, left_with, does, does_after};
ghost use Rattle.store.specs.View.{size, cells};
ghost use Rattle.store.specs.Store.{Admitted};

use placing::place_call;
use store::{Refusal, Reply, Shape, Store, phase, put_consumer, put_drain, size, word};

// *Start enqueue* on admitted words.
pub fn begin_enqueue(s: &mut [u32], z: Shape, t: u32, v: u32) -> Result<Reply, Refusal>
    requires { Admitted (sizes z) s.old }
    ensures { left_with 1 result s.new ≡ does_after 1 (starting_enqueue t v) z s.old }
{
    let store = Store { words: s, shape: z };
    if t == 0 {
        return Err(Refusal::NoThread);
    }
    if z.producers < t {
        return Err(Refusal::NoThread);
    }
    if store.producer(t).phase != phase::IDLE {
        return Err(Refusal::Busy);
    }
    let q = store.contents();
    if q.starts == z.starts {
        return Err(Refusal::NoStartLeft);
    }
    if q.tail == z.starts {
        return Err(Refusal::Broken);
    }
    Ok(Reply::Started(place_call(s, z, t, v)))
}

// Whether the consumer has no call under way.
fn is_idle(store: &Store) -> bool
    ensures { eqb (cells store.now consumer_phase) 0 ≡ result }
{
    store.consumer().phase == phase::IDLE
}

// *Start dequeue* on admitted words puts the consumer in phase 1.
pub fn begin_dequeue(s: &mut [u32], z: Shape) -> Result<Reply, Refusal>
    requires { Admitted (sizes z) s.old }
    ensures { left result s.new ≡ does starting_dequeue z s.old }
{
    let store = Store { words: s, shape: z };
    if !is_idle(&store) {
        return Err(Refusal::Busy);
    }
    put_consumer(s, z, word::PHASE, phase::FRONT);
    Ok(Reply::Done)
}

// *Start drain* on admitted words puts the consumer in phase 1 and stores the limit.
pub fn begin_drain(s: &mut [u32], z: Shape, limit: u32) -> Result<Reply, Refusal>
    requires { Admitted (sizes z) s.old }
    ensures { left result s.new ≡ does (starting_drain limit) z s.old }
{
    let store = Store { words: s, shape: z };
    if !is_idle(&store) {
        return Err(Refusal::Busy);
    }
    if limit == 0 {
        return Err(Refusal::Limit);
    }
    if size::MOST_DRAINED < limit {
        return Err(Refusal::Limit);
    }
    put_drain(s, z, word::LIMIT, limit);
    put_consumer(s, z, word::PHASE, phase::FRONT);
    Ok(Reply::Done)
}
