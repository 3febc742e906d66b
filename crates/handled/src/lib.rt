// The parts of the consumer's phase 7 (document 01, "Calls"; document 02, U2 and U5): what the mark of the found entry leads to, and what it writes.
#![tactic(auto)]

ghost use Rattle.std.specs.Prelude.{◌≡◌, ◌<◌};
ghost use Rattle.rules.specs.Sizes.{most_drained};
ghost use Rattle.rules.specs.Cell.{reader, writes};
ghost use Rattle.rules.specs.Consumer.{drained_at};
ghost use Rattle.store.specs.Shape.{sizes};
ghost use Rattle.store.specs.View.{size, cells};
ghost use Rattle.store.specs.Store.{Room, Admitted};
ghost use Rattle.handled.specs.Marking.{Leads, marked, to_retire, kept};

use store::{
    Located, Refusal, Shape, Store, keep_pair, needed, phase, put_consumer, put_content, put_drain,
    put_entry, put_found, state, word,
};

// Whether the head record h is drained by a head at this position: it ends there, and it is not the tail record.
fn drained_at(store: &Store, h: u32, position: u32) -> bool
    requires { h < store.now.shape.records }
    ensures { drained_at (size store.now) (cells store.now) h position ≡ result }
{
    (position == store.record_end(h)) & (store.contents().tail_record != h + 1)
}

// What the mark of the found entry leads to: to phase 8, or the item is given.
#[derive(Clone, Copy)]
pub enum Mark {
    Retires,
    Gives,
}

// If found is the head position, it advances. If that brings the head to the head record's end and the head record is not the tail
// record, to 8. Refusal 9: the head would pass the last position, or there is no head record.
pub fn mark_leads(store: &Store) -> Result<Mark, Refusal>
    ensures { Leads (size store.now) store.now.words.now result }
{
    let q = store.contents();
    if store.consumer().found_position != q.head_position {
        return Ok(Mark::Gives);
    }
    if store.shape.starts <= q.head_position {
        return Err(Refusal::Broken);
    }
    let head = needed(q.head_record)?;
    if drained_at(store, head, q.head_position + 1) {
        return Ok(Mark::Retires);
    }
    Ok(Mark::Gives)
}

// The found entry becomes handled; if found is the head position, it advances.
pub fn put_mark(s: &mut [u32], z: Shape, at: Located)
    requires admitted { Admitted (sizes z) s.old }
    requires at_lt_records { (at.record < z.records) × (at.index < z.entries) }
    ensures { s.new ≡ writes (sizes z) s.old (marked (sizes z) (reader (sizes z) s.old) at.record at.index) }
{
    let store = Store { words: s, shape: z };
    let q = store.contents();
    let front = store.consumer().found_position == q.head_position;
    put_entry(s, z, at.record, at.index, word::STATE, state::HANDLED);
    if front {
        put_content(s, z, word::HEAD_POSITION, q.head_position + 1);
    }
}

// To 8: found is not in use there.
pub fn put_retire(s: &mut [u32], z: Shape)
    requires { Room (sizes z) s.old }
    ensures { s.new ≡ writes (sizes z) s.old to_retire }
{
    put_found(s, z, 0, 0);
    put_consumer(s, z, word::PHASE, phase::RETIRE);
}

// A drain keeps an item from its mark: the next pair, i, and the count one more.
pub fn keep_item(s: &mut [u32], z: Shape, i: u32, number: u32, value: u32)
    requires room { Room (sizes z) s.old }
    requires i_lt_most_drained { i < most_drained }
    ensures { s.new ≡ writes (sizes z) s.old (kept i number value) }
{
    keep_pair(s, z, i, number, value);
    put_drain(s, z, word::COUNT, i + 1);
}
