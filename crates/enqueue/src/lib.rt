// The producer's phases 2, 3 and 6 to 9, a function each (document 01, "Calls"). The words are admitted and t is a producer.
#![tactic(auto)]

ghost use Rattle.std.specs.Prelude.{◌≡◌, ◌≤◌, ◌<◌};
ghost use Rattle.rules.specs.Cell.{reader};
ghost use Rattle.rules.specs.Producer.{choose, load_tail, look_next, shift_tail, go_back, write_entry, set_entry};
ghost use Rattle.store.specs.Shape.{sizes};
ghost use Rattle.store.specs.Outcome.{left, does};
ghost use Rattle.store.specs.View.{size, cells};
ghost use Rattle.store.specs.Store.{Admitted};

use store::{
    Refusal, Reply, Shape, Store, clear_producer, needed, phase, put_content, put_entry,
    put_producer, state, word,
};

// "choose" means: L at or past B × place of the held record goes to 3; L below B × (place − 1) goes to 7; otherwise 8.
fn choose_phase(store: &Store, t: u32, r: u32) -> u32
    requires { (1 ≤ t) × (t ≤ store.now.shape.producers) × (r < store.now.shape.records) }
    ensures { choose (size store.now) (cells store.now) t r ≡ result }
{
    let position = store.producer(t).position;
    let end = store.record_end(r);
    if end <= position {
        phase::LOOK
    } else if position + store.shape.entries < end {
        phase::BACK
    } else {
        phase::WRITE
    }
}

// 2. Load: hold the tail record; choose.
pub fn load_tail(s: &mut [u32], z: Shape, t: u32) -> Result<Reply, Refusal>
    requires admitted { Admitted (sizes z) s.old }
    requires le_t { (1 ≤ t) × (t ≤ z.producers) }
    ensures { left result s.new ≡ does (λ z σ. load_tail z σ t) z s.old }
{
    let store = Store { words: s, shape: z };
    let tail_record = store.contents().tail_record;
    let record = needed(tail_record)?;
    let to = choose_phase(&store, t, record);
    put_producer(s, z, t, word::HELD, tail_record);
    put_producer(s, z, t, word::PHASE, to);
    Ok(Reply::Going)
}

// 3. Look at next of held: none goes to 4, otherwise 6.
pub fn look_next(s: &mut [u32], z: Shape, t: u32) -> Result<Reply, Refusal>
    requires admitted { Admitted (sizes z) s.old }
    requires le_t { (1 ≤ t) × (t ≤ z.producers) }
    ensures { left result s.new ≡ does (λ z σ. look_next z σ t) z s.old }
{
    let store = Store { words: s, shape: z };
    let held = needed(store.producer(t).held)?;
    let none = store.part(held, word::NEXT) == 0;
    let to = if none { phase::CLAIM } else { phase::SHIFT };
    put_producer(s, z, t, word::PHASE, to);
    Ok(Reply::Going)
}

// 6. Shift: if the tail record is the held one, it becomes next of held. To 2.
pub fn shift_tail(s: &mut [u32], z: Shape, t: u32) -> Result<Reply, Refusal>
    requires admitted { Admitted (sizes z) s.old }
    requires le_t { (1 ≤ t) × (t ≤ z.producers) }
    ensures { left result s.new ≡ does (λ z σ. shift_tail z σ t) z s.old }
{
    let store = Store { words: s, shape: z };
    let held = store.producer(t).held;
    let record = needed(held)?;
    if store.contents().tail_record == held {
        let next = store.part(record, word::NEXT);
        needed(next)?;
        put_content(s, z, word::TAIL_RECORD, next);
    }
    put_producer(s, z, t, word::PHASE, phase::LOAD);
    Ok(Reply::Going)
}

// 7. Back: hold prev of held; choose.
pub fn go_back(s: &mut [u32], z: Shape, t: u32) -> Result<Reply, Refusal>
    requires admitted { Admitted (sizes z) s.old }
    requires le_t { (1 ≤ t) × (t ≤ z.producers) }
    ensures { left result s.new ≡ does (λ z σ. go_back z σ t) z s.old }
{
    let store = Store { words: s, shape: z };
    let held = needed(store.producer(t).held)?;
    let prev = store.part(held, word::PREV);
    let record = needed(prev)?;
    let to = choose_phase(&store, t, record);
    put_producer(s, z, t, word::HELD, prev);
    put_producer(s, z, t, word::BACKED, 1);
    put_producer(s, z, t, word::PHASE, to);
    Ok(Reply::Going)
}

// 8. Write call number and value into the entry; to 9.
pub fn write_entry(s: &mut [u32], z: Shape, t: u32) -> Result<Reply, Refusal>
    requires admitted { Admitted (sizes z) s.old }
    requires le_t { (1 ≤ t) × (t ≤ z.producers) }
    ensures { left result s.new ≡ does (λ z σ. write_entry z σ t) z s.old }
{
    let store = Store { words: s, shape: z };
    let p = store.producer(t);
    let at = store.locate(p.held, p.position)?;
    put_entry(s, z, at.record, at.index, word::ENTRY_CALL, p.call);
    put_entry(s, z, at.record, at.index, word::ENTRY_VALUE, p.value);
    put_producer(s, z, t, word::PHASE, phase::SET);
    Ok(Reply::Going)
}

// 9. Set the entry. If the index is 1 and phase 7 was never taken, to 10; otherwise end.
pub fn set_entry(s: &mut [u32], z: Shape, t: u32) -> Result<Reply, Refusal>
    requires admitted { Admitted (sizes z) s.old }
    requires le_t { (1 ≤ t) × (t ≤ z.producers) }
    ensures { left result s.new ≡ does (λ z σ. set_entry z σ t) z s.old }
{
    let store = Store { words: s, shape: z };
    let p = store.producer(t);
    let at = store.locate(p.held, p.position)?;
    let ahead = (at.index == 1) & (p.backed == 0);
    put_entry(s, z, at.record, at.index, word::STATE, state::SET);
    if ahead {
        put_producer(s, z, t, word::PHASE, phase::CLAIM_AHEAD);
        return Ok(Reply::Going);
    }
    clear_producer(s, z, t);
    Ok(Reply::Ended)
}
