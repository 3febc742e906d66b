// The consumer's phases 6 and 7, a function each (document 01, "Calls"; document 02, U2 and U5): the item is read, taken and given. The words are
// admitted.
#![tactic(auto)]

ghost use Rattle.std.specs.Prelude.{◌≡◌, [], ◌++◌, ◌<◌};
ghost use Rattle.rules.specs.Cell.{reader, drain_limit, drain_count};
ghost use Rattle.rules.specs.Consumer.{read_item, marks, keep_item, replies_item, mark_handled};
ghost use Rattle.store.specs.Shape.{sizes};
ghost use Rattle.store.specs.Outcome.{left, does};
ghost use Rattle.store.specs.Store.{Admitted};
ghost use Rattle.handled.specs.Marking.{marked};
ghost use Rattle.taking.specs.Drains.{drain_marks, drain_gives};

use draining::{drain_ending, go_on};
use handled::{Mark, keep_item, mark_leads, put_mark, put_retire};
use store::{Located, Refusal, Reply, Shape, Store, clear_consumer, phase, put_consumer, word};

// 6. Read call number and value; to 7.
pub fn read_item(s: &mut [u32], z: Shape) -> Result<Reply, Refusal>
    requires { Admitted (sizes z) s.old }
    ensures { left result s.new ≡ does read_item z s.old }
{
    let store = Store { words: s, shape: z };
    let c = store.consumer();
    let at = store.locate(c.found_record, c.found_position)?;
    let number = store.entry(at.record, at.index, word::ENTRY_CALL);
    let value = store.entry(at.record, at.index, word::ENTRY_VALUE);
    put_consumer(s, z, word::ITEM_CALL, number);
    put_consumer(s, z, word::ITEM_VALUE, value);
    put_consumer(s, z, word::PHASE, phase::MARK);
    Ok(Reply::Going)
}

// The mark of a dequeue: reply item, or to 8.
fn mark_item(s: &mut [u32], z: Shape, at: Located) -> Result<Reply, Refusal>
    requires admitted { Admitted (sizes z) s.old }
    requires at_lt_records { (at.record < z.records) × (at.index < z.entries) }
    ensures { left result s.new ≡ does (λ z σ. marks z σ at.record at.index [] (replies_item z σ)) z s.old }
{
    let store = Store { words: s, shape: z };
    match mark_leads(&store)? {
        Mark::Retires => {
            put_mark(s, z, at);
            put_retire(s, z);
            Ok(Reply::Going)
        }
        Mark::Gives => {
            let c = store.consumer();
            put_mark(s, z, at);
            clear_consumer(s, z);
            Ok(Reply::Item(c.item_call, c.item_value))
        }
    }
}

// The mark of a drain that does not go to 8: it goes on, or ends.
fn mark_gives(
    s: &mut [u32],
    z: Shape,
    at: Located,
    b: &mut [u32],
    from: u32,
) -> Result<Reply, Refusal>
    requires admitted { Admitted (sizes z) s.old }
    requires at_lt_records { (at.record < z.records) × (at.index < z.entries) × (reader (sizes z) s.old drain_count < reader (sizes z) s.old drain_limit) }
    ensures { left result s.new b.new from ≡ does (λ z σ. drain_gives z σ (marked z σ at.record at.index ++ keep_item z σ)) z s.old b.old from }
{
    let store = Store { words: s, shape: z };
    let c = store.consumer();
    let count = store.drain().count;
    let ends = drain_ending(&store, count + 1, b, from)?;
    put_mark(s, z, at);
    keep_item(s, z, count, c.item_call, c.item_value);
    Ok(go_on(s, z, count + 1, ends, b, from))
}

// The mark of a drain. Refusal 9: the count would pass the limit.
fn mark_drained(
    s: &mut [u32],
    z: Shape,
    at: Located,
    b: &mut [u32],
    from: u32,
) -> Result<Reply, Refusal>
    requires admitted { Admitted (sizes z) s.old }
    requires at_lt_records { (at.record < z.records) × (at.index < z.entries) }
    ensures { left result s.new b.new from ≡ does (λ z σ. drain_marks z σ at.record at.index) z s.old b.old from }
{
    let store = Store { words: s, shape: z };
    let d = store.drain();
    if d.limit <= d.count {
        return Err(Refusal::Broken);
    }
    match mark_leads(&store)? {
        Mark::Retires => {
            let c = store.consumer();
            put_mark(s, z, at);
            put_retire(s, z);
            keep_item(s, z, d.count, c.item_call, c.item_value);
            Ok(Reply::Going)
        }
        Mark::Gives => mark_gives(s, z, at, b, from),
    }
}

// 7. Mark handled; if found is the head position, it advances. Reply item, or to 8. A drain keeps the item.
pub fn mark_handled(s: &mut [u32], z: Shape, b: &mut [u32], from: u32) -> Result<Reply, Refusal>
    requires { Admitted (sizes z) s.old }
    ensures { left result s.new b.new from ≡ does mark_handled z s.old b.old from }
{
    let store = Store { words: s, shape: z };
    let c = store.consumer();
    let at = store.locate(c.found_record, c.found_position)?;
    if store.drain().limit == 0 {
        return mark_item(s, z, at);
    }
    mark_drained(s, z, at, b, from)
}
