// The consumer's phases 3 and 4, the scan (document 01, "Calls"); what it has read it folds (document 02, U6). The words are admitted. A phase
// that may end a drain is lent the buffer (document 02, U5).
#![tactic(auto)]

ghost use Rattle.std.specs.Prelude.{◌≡◌, cond, [], ◌∷◌, ◌<◌, eqb};
ghost use Rattle.rules.specs.Cell.{reader, writes, ◌:=◌, all_handled, cursor_record, cursor_position};
ghost use Rattle.rules.specs.Consumer.{scan_crosses, scan, read_entry};
ghost use Rattle.store.specs.Shape.{sizes};
ghost use Rattle.store.specs.Outcome.{left, does};
ghost use Rattle.store.specs.View.{size, cells};
ghost use Rattle.store.specs.Store.{Room, Admitted};

use dequeue::{Crossing, cross_from};
use draining::end_empty;
use folding::{fold, is_read};
use store::{
    Refusal, Reply, Shape, Store, needed, phase, put_all_handled, put_consumer, put_cursor,
    put_found, state, word,
};

// The scan enters the record that a crossing leads to, at its first entry.
fn enter(s: &mut [u32], z: Shape, to: Crossing)
    requires { Room (sizes z) s.old }
    ensures { s.new ≡ writes (sizes z) s.old (cursor_record := to.link ∷ cursor_position := to.position ∷ all_handled := 1 ∷ []) }
{
    put_cursor(s, z, to.link, to.position);
    put_all_handled(s, z, 1);
}

// The crossing of the scan out of record r, which is not the tail record. If it is read, the same step folds it.
fn scan_crosses(s: &mut [u32], z: Shape, r: u32) -> Result<Reply, Refusal>
    requires admitted { Admitted (sizes z) s.old }
    requires r_lt_records { r < z.records }
    ensures { left result s.new ≡ does (λ z σ. scan_crosses z σ r) z s.old }
{
    let store = Store { words: s, shape: z };
    let to = cross_from(&store, r)?;
    if is_read(&store, r) {
        let before = needed(store.part(r, word::PREV))?;
        fold(s, z, r, before, to.link - 1);
    }
    enter(s, z, to);
    Ok(Reply::Going)
}

// 3. If the cursor stands at its record's end: empty if that is the tail record, otherwise cross to next, the cursor at its
// first position (so in every crossing); stay. Else read tail: cursor at tail is empty; otherwise to 4.
pub fn scan_on(s: &mut [u32], z: Shape, b: &mut [u32], from: u32) -> Result<Reply, Refusal>
    requires { Admitted (sizes z) s.old }
    ensures { left result s.new b.new from ≡ does scan z s.old b.old from }
{
    let store = Store { words: s, shape: z };
    let c = store.consumer();
    let record = needed(c.cursor_record)?;
    let q = store.contents();
    if c.cursor_position != store.record_end(record) {
        if c.cursor_position == q.tail {
            return end_empty(s, z, b, from);
        }
        put_consumer(s, z, word::PHASE, phase::READ_ENTRY);
        return Ok(Reply::Going);
    }
    if q.tail_record == c.cursor_record {
        return end_empty(s, z, b, from);
    }
    scan_crosses(s, z, record)
}

// What the scan has read, with an entry in this state.
// Stays: 0 or 1, the word that is written back; C lends it, and the rules speak of the word.
fn still_handled(store: &Store, found: u32) -> u32
    ensures { cond (eqb found 2) (cells store.now all_handled) 0 ≡ result }
{
    if found != state::HANDLED {
        return 0;
    }
    store.all_handled()
}

// 4. Read the entry: set makes it found, and the cursor returns to the head; to 5. Otherwise advance; to 3. What the scan has read is still all
// handled if this entry is.
pub fn read_entry(s: &mut [u32], z: Shape) -> Result<Reply, Refusal>
    requires { Admitted (sizes z) s.old }
    ensures { left result s.new ≡ does read_entry z s.old }
{
    let store = Store { words: s, shape: z };
    let c = store.consumer();
    let at = store.locate(c.cursor_record, c.cursor_position)?;
    let found = store.entry(at.record, at.index, word::STATE);
    if found == state::SET {
        let q = store.contents();
        put_found(s, z, c.cursor_record, c.cursor_position);
        put_cursor(s, z, q.head_record, q.head_position);
        put_all_handled(s, z, 0);
        put_consumer(s, z, word::PHASE, phase::RESCAN);
        return Ok(Reply::Going);
    }
    if z.starts <= c.cursor_position {
        return Err(Refusal::Broken);
    }
    let handled = still_handled(&store, found);
    put_consumer(s, z, word::CURSOR_POSITION, c.cursor_position + 1);
    put_all_handled(s, z, handled);
    put_consumer(s, z, word::PHASE, phase::SCAN);
    Ok(Reply::Going)
}
