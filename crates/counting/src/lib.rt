// *Step* (thread) on admitted words: one phase, and its number (document 01, "Calls"; document 02, U3).
#![tactic(auto)]

ghost use Rattle.std.specs.Prelude.{◌≡◌, ◌≤◌};
ghost use Rattle.rules.specs.Sizes.{most_steps};
ghost use Rattle.rules.specs.Cell.{reader, step_count};
ghost use Rattle.rules.specs.Rule.{refuse};
ghost use Rattle.rules.specs.Request.{step, effect};
ghost use Rattle.store.specs.Shape.{sizes};
ghost use Rattle.store.specs.Outcome.{left_after};
ghost use Rattle.store.specs.Refusal.{refusal_number};
ghost use Rattle.store.specs.View.{size, cells};
ghost use Rattle.store.specs.Store.{Admitted};
ghost use Rattle.counting.specs.Answer.{answer};

use claim::next_free;
use stepping::step_thread;
use store::{Counted, Refusal, Reply, Shape, Store, phase, put_step_count, size};

// The refusal of a step whose number would leave its range: 9, but the phase's own 8 comes first.
fn full_refusal(store: &Store, t: u32) -> Refusal
    requires { (t ≤ store.now.shape.producers) × (most_steps ≤ cells store.now (step_count t)) }
    ensures { effect (step t) (size store.now) (cells store.now) ≡ refuse (refusal_number result) }
{
    if t == 0 {
        return Refusal::Broken;
    }
    if store.producer(t).phase == phase::CLAIM {
        if next_free(store).is_none() {
            return Refusal::NoneFree;
        }
    }
    Refusal::Broken
}

// *Step* (thread) on admitted words does one phase and is counted. The number is kept where the call goes on.
pub fn count_step(
    s: &mut [u32],
    z: Shape,
    t: u32,
    b: &mut [u32],
    from: u32,
) -> Result<Counted, Refusal>
    requires { Admitted (sizes z) s.old }
    ensures { left_after result s.new b.new from ≡ answer (step t) z s.old b.old from }
{
    let store = Store { words: s, shape: z };
    if z.producers < t {
        return Err(Refusal::NoThread);
    }
    let before = store.step_count(t);
    if size::MOST_STEPS <= before {
        return Err(full_refusal(&store, t));
    }
    let steps = before + 1;
    let reply = step_thread(s, z, t, b, from)?;
    if let Reply::Going = reply {
        put_step_count(s, z, t, steps);
    }
    Ok(Counted { reply, steps })
}
