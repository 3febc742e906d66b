// The producer's phases 5 and 11, which link the claimed record or give it back (document 01, "Calls"). The words are admitted and t is a producer.
#![tactic(auto)]

ghost use Rattle.std.specs.Prelude.{◌≡◌, ◌≤◌, ◌<◌};
ghost use Rattle.rules.specs.Producer.{link_claimed, link_ahead};
ghost use Rattle.store.specs.Shape.{sizes};
ghost use Rattle.store.specs.Outcome.{left, does};
ghost use Rattle.store.specs.Store.{Admitted};
ghost use Rattle.linking.specs.Link.{Linked};

use store::{
    Refusal, Reply, Shape, Store, clear_producer, needed, phase, put_part, put_producer, put_use,
    size, usage, word,
};

// Link: if next of held is none, the claimed record becomes it, linked, prev held, place one more. Otherwise it is given
// back, use 0. Refusal 9, and nothing stored, where a needed link is none or the place would leave its range.
fn link(s: &mut [u32], z: Shape, t: u32) -> Result<(), Refusal>
    requires admitted { Admitted (sizes z) s.old }
    requires le_t { (1 ≤ t) × (t ≤ z.producers) }
    ensures { Linked (sizes z) s.old t result s.new }
{
    let store = Store { words: s, shape: z };
    let p = store.producer(t);
    let held = needed(p.held)?;
    let claimed = needed(p.claimed)?;
    if store.part(held, word::NEXT) != 0 {
        put_use(s, z, claimed, usage::FREE);
        return Ok(());
    }
    let place = store.part(held, word::PLACE);
    if size::MOST_PLACE <= place {
        return Err(Refusal::Broken);
    }
    put_part(s, z, held, word::NEXT, p.claimed);
    put_use(s, z, claimed, usage::LINKED);
    put_part(s, z, claimed, word::PREV, p.held);
    put_part(s, z, claimed, word::PLACE, place + 1);
    Ok(())
}

// 5. Link. To 6.
pub fn link_claimed(s: &mut [u32], z: Shape, t: u32) -> Result<Reply, Refusal>
    requires admitted { Admitted (sizes z) s.old }
    requires le_t { (1 ≤ t) × (t ≤ z.producers) }
    ensures { left result s.new ≡ does (λ z σ. link_claimed z σ t) z s.old }
{
    link(s, z, t)?;
    put_producer(s, z, t, word::CLAIMED, 0);
    put_producer(s, z, t, word::PHASE, phase::SHIFT);
    Ok(Reply::Going)
}

// 11. As 5, then end. The tail record does not move.
pub fn link_ahead(s: &mut [u32], z: Shape, t: u32) -> Result<Reply, Refusal>
    requires admitted { Admitted (sizes z) s.old }
    requires le_t { (1 ≤ t) × (t ≤ z.producers) }
    ensures { left result s.new ≡ does (λ z σ. link_ahead z σ t) z s.old }
{
    link(s, z, t)?;
    clear_producer(s, z, t);
    Ok(Reply::Ended)
}
