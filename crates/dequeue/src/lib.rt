// The consumer's phases 1 and 2, a function each, and crossings (document 01, "Calls"). The words are admitted. A phase that may end a drain is
// lent the buffer (document 02, U5).
#![tactic(auto)]

ghost use Rattle.std.specs.Prelude.{◌≡◌, [], ◌∷◌, ◌<◌};
ghost use Rattle.rules.specs.Cell.{writes, ◌:=◌, head_record, head_position, used};
ghost use Rattle.rules.specs.Rule.{goes};
ghost use Rattle.rules.specs.Consumer.{move_head, front, read_tail};
ghost use Rattle.store.specs.Shape.{sizes};
ghost use Rattle.store.specs.Outcome.{left, does};
ghost use Rattle.store.specs.View.{size, cells};
ghost use Rattle.store.specs.Store.{Room, Admitted};
ghost use Rattle.dequeue.specs.Crossing.{Crossed};

use draining::end_empty;
use store::{
    Refusal, Reply, Shape, Slot, Store, needed, phase, put_consumer, put_content, put_cursor,
    put_found, put_head, put_use, state, usage, word,
};

// Where a crossing leads: a link and the first position of its record.
#[derive(Clone, Copy)]
pub struct Crossing {
    pub link: u32,
    pub position: u32,
}

// From record r to its next, at that one's first position; refusal 9 where there is no next, it has no place, or that position is past the last.
pub fn cross_from(store: &Store, r: u32) -> Result<Crossing, Refusal>
    requires { r < store.now.shape.records }
    ensures { Crossed (size store.now) store.now.words.now r result }
{
    let link = store.part(r, word::NEXT);
    let next = needed(link)?;
    let before = needed(store.part(next, word::PLACE))?;
    let position = store.shape.entries * before;
    if store.shape.starts < position {
        return Err(Refusal::Broken);
    }
    Ok(Crossing { link, position })
}

// The head moves to where a crossing leads, and record h is retired.
pub fn move_to(s: &mut [u32], z: Shape, h: u32, to: Crossing)
    requires room { Room (sizes z) s.old }
    requires h_lt_records { h < z.records }
    ensures { s.new ≡ writes (sizes z) s.old (head_record := to.link ∷ head_position := to.position ∷ used h := 3 ∷ []) }
{
    put_head(s, z, to.link, to.position);
    put_use(s, z, h, usage::RETIRED);
}

// The move past the end of the head record: next becomes head record, head position its first, the old one is retired.
fn move_head(s: &mut [u32], z: Shape, h: u32) -> Result<Reply, Refusal>
    requires admitted { Admitted (sizes z) s.old }
    requires h_lt_records { h < z.records }
    ensures { left result s.new ≡ does (λ z σ. move_head z σ h goes) z s.old }
{
    let store = Store { words: s, shape: z };
    let to = cross_from(&store, h)?;
    move_to(s, z, h, to);
    Ok(Reply::Going)
}

// 1. Front. At the end of the head record: empty if it is also the tail record; otherwise next becomes head record, head
// position its first, the old one is retired; stay. Else read the entry: handled advances the head; set goes to 6 with found
// the head; empty goes to 2. A drain that has marked an item ends there.
pub fn read_front(s: &mut [u32], z: Shape, b: &mut [u32], from: u32) -> Result<Reply, Refusal>
    requires { Admitted (sizes z) s.old }
    ensures { left result s.new b.new from ≡ does front z s.old b.old from }
{
    let store = Store { words: s, shape: z };
    let q = store.contents();
    let slot = store.slot_in(q.head_record, q.head_position)?;
    match slot {
        Slot::End { record } => {
            if q.tail_record == q.head_record {
                return end_empty(s, z, b, from);
            }
            move_head(s, z, record)
        }
        Slot::At { record, index } => {
            let found = store.entry(record, index, word::STATE);
            if found == state::EMPTY {
                if store.drain().count != 0 {
                    return end_empty(s, z, b, from);
                }
                put_consumer(s, z, word::PHASE, phase::READ_TAIL);
                return Ok(Reply::Going);
            }
            if found == state::SET {
                put_found(s, z, q.head_record, q.head_position);
                put_consumer(s, z, word::PHASE, phase::READ_ITEM);
                return Ok(Reply::Going);
            }
            if z.starts <= q.head_position {
                return Err(Refusal::Broken);
            }
            put_content(s, z, word::HEAD_POSITION, q.head_position + 1);
            Ok(Reply::Going)
        }
    }
}

// 2. Read tail: equal to the head position is empty; otherwise the cursor is the next position; to 3.
pub fn read_tail(s: &mut [u32], z: Shape, b: &mut [u32], from: u32) -> Result<Reply, Refusal>
    requires { Admitted (sizes z) s.old }
    ensures { left result s.new b.new from ≡ does read_tail z s.old b.old from }
{
    let store = Store { words: s, shape: z };
    let q = store.contents();
    if q.tail == q.head_position {
        return end_empty(s, z, b, from);
    }
    if z.starts <= q.head_position {
        return Err(Refusal::Broken);
    }
    put_cursor(s, z, q.head_record, q.head_position + 1);
    put_consumer(s, z, word::PHASE, phase::SCAN);
    Ok(Reply::Going)
}
