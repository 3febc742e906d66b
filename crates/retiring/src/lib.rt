// The consumer's phase 8 (document 02, U2 and U5): the head record is retired, and the item is given. The words are admitted.
#![tactic(auto)]

ghost use Rattle.std.specs.Prelude.{◌≡◌, ◌<◌};
ghost use Rattle.rules.specs.Consumer.{retire_head};
ghost use Rattle.store.specs.Shape.{sizes};
ghost use Rattle.store.specs.Outcome.{left, does};
ghost use Rattle.store.specs.Store.{Admitted};
ghost use Rattle.retiring.specs.Retiring.{drain_retires};

use dequeue::{Crossing, cross_from, move_to};
use draining::{drain_ending, go_on};
use store::{Refusal, Reply, Shape, Store, clear_consumer, needed};

// The head moves to where a crossing leads, record h is retired, and the drain goes on, or ends.
fn retire_drained(
    s: &mut [u32],
    z: Shape,
    h: u32,
    to: Crossing,
    b: &mut [u32],
    from: u32,
) -> Result<Reply, Refusal>
    requires admitted { Admitted (sizes z) s.old }
    requires h_lt_records { h < z.records }
    ensures { left result s.new b.new from ≡ does (λ z σ. drain_retires z σ h to.link to.position) z s.old b.old from }
{
    let store = Store { words: s, shape: z };
    let count = store.drain().count;
    let ends = drain_ending(&store, count, b, from)?;
    move_to(s, z, h, to);
    Ok(go_on(s, z, count, ends, b, from))
}

// 8. The move and retirement of phase 1. Reply item. A drain goes on, or ends.
pub fn retire_head(s: &mut [u32], z: Shape, b: &mut [u32], from: u32) -> Result<Reply, Refusal>
    requires { Admitted (sizes z) s.old }
    ensures { left result s.new b.new from ≡ does retire_head z s.old b.old from }
{
    let store = Store { words: s, shape: z };
    let head = needed(store.contents().head_record)?;
    let to = cross_from(&store, head)?;
    if store.drain().limit != 0 {
        return retire_drained(s, z, head, to, b, from);
    }
    let taken = store.consumer();
    move_to(s, z, head, to);
    clear_consumer(s, z);
    Ok(Reply::Item(taken.item_call, taken.item_value))
}
