// The consumer's phase 5 (document 01, "Calls"). The words are admitted.
#![tactic(auto)]

ghost use Rattle.std.specs.Prelude.{◌≡◌, ◌<◌, Ok};
ghost use Rattle.rules.specs.Cell.{reader, writes};
ghost use Rattle.rules.specs.Rule.{cross};
ghost use Rattle.rules.specs.Consumer.{through_scan, rescan};
ghost use Rattle.store.specs.Shape.{sizes};
ghost use Rattle.store.specs.Outcome.{left, does};
ghost use Rattle.store.specs.View.{size, cells};
ghost use Rattle.store.specs.Store.{Room, Admitted};
ghost use Rattle.rescan.specs.Rescan.{settles, moves, to_rescan, rescan_found};

use dequeue::cross_from;
use store::{
    Refusal, Reply, Shape, Slot, Store, phase, put_consumer, put_cursor, put_found, state, word,
};

// Whether a drain came through the scan: 1, or 0 where the call is a dequeue (document 02, U5).
fn through_scan(store: &Store) -> u32
    ensures { through_scan (size store.now) (cells store.now) ≡ result }
{
    u32::from(store.drain().limit != 0)
}

// The entry found is the one to take; the cursor is not in use any more, and its position says how the call came here; to 6.
fn settle(s: &mut [u32], z: Shape, through: u32)
    requires { Room (sizes z) s.old }
    ensures { s.new ≡ writes (sizes z) s.old (settles through) }
{
    put_cursor(s, z, 0, through);
    put_consumer(s, z, word::PHASE, phase::READ_ITEM);
}

// The cursor moves to a link and a position. When its position then equals that of found, the same step goes to 6; otherwise
// stay.
fn move_cursor(s: &mut [u32], z: Shape, link: u32, position: u32, found: u32, through: u32)
    requires { Room (sizes z) s.old }
    ensures { s.new ≡ writes (sizes z) s.old (moves link position found through) }
{
    if position == found {
        settle(s, z, through);
        return;
    }
    put_cursor(s, z, link, position);
}

// The cursor stands at the end of its record r, and crosses.
fn rescan_end(s: &mut [u32], z: Shape, r: u32) -> Result<Reply, Refusal>
    requires admitted { Admitted (sizes z) s.old }
    requires r_lt_records { r < z.records }
    ensures { left result s.new ≡ does (λ z σ. cross z σ r (to_rescan z σ)) z s.old }
{
    let store = Store { words: s, shape: z };
    let to = cross_from(&store, r)?;
    let found = store.consumer().found_position;
    let through = through_scan(&store);
    move_cursor(s, z, to.link, to.position, found, through);
    Ok(Reply::Going)
}

// A set entry becomes found and the cursor returns to the head.
fn rescan_found(s: &mut [u32], z: Shape) -> Reply
    requires { Admitted (sizes z) s.old }
    ensures { left (Ok result) s.new ≡ does rescan_found z s.old }
{
    let store = Store { words: s, shape: z };
    let c = store.consumer();
    let q = store.contents();
    let through = through_scan(&store);
    put_found(s, z, c.cursor_record, c.cursor_position);
    move_cursor(
        s,
        z,
        q.head_record,
        q.head_position,
        c.cursor_position,
        through,
    );
    Reply::Going
}

// 5. Rescan from the head, head included, to the position before found, that one included. One step either crosses, when the
// cursor stands at a record's end, or reads one entry. A set entry becomes found and the cursor returns to the head; any
// other is passed by one position. When the cursor's position then equals that of found, the same step goes to 6; otherwise
// stay.
pub fn rescan_on(s: &mut [u32], z: Shape) -> Result<Reply, Refusal>
    requires { Admitted (sizes z) s.old }
    ensures { left result s.new ≡ does rescan z s.old }
{
    let store = Store { words: s, shape: z };
    let c = store.consumer();
    let slot = store.slot_in(c.cursor_record, c.cursor_position)?;
    match slot {
        Slot::End { record } => rescan_end(s, z, record),
        Slot::At { record, index } => {
            if store.entry(record, index, word::STATE) == state::SET {
                return Ok(rescan_found(s, z));
            }
            if z.starts <= c.cursor_position {
                return Err(Refusal::Broken);
            }
            if c.cursor_position + 1 == c.found_position {
                let through = through_scan(&store);
                settle(s, z, through);
                return Ok(Reply::Going);
            }
            put_consumer(s, z, word::CURSOR_POSITION, c.cursor_position + 1);
            Ok(Reply::Going)
        }
    }
}
