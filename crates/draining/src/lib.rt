// Where a drain ends or goes on (document 02, U5): its items go into the buffer that the caller lends.
#![tactic(auto)]

ghost use Rattle.std.specs.Prelude.{◌≡◌, true, ◌+◌, ◌*◌, ◌≤◌, length, Ok};
ghost use Rattle.std.proofs.lemmas.List.Edits.{sets};
ghost use Rattle.rules.specs.Sizes.{most_drained};
ghost use Rattle.rules.specs.Cell.{reader};
ghost use Rattle.rules.specs.Consumer.{items_marked, ends_empty};
ghost use Rattle.rules.specs.Request.{item_words};
ghost use Rattle.store.specs.Shape.{sizes};
ghost use Rattle.store.specs.Outcome.{left, does};
ghost use Rattle.store.specs.View.{size, cells};
ghost use Rattle.store.specs.Store.{Room, Admitted};
ghost use Rattle.draining.specs.Onward.{ends_with, onward};
ghost use Rattle.draining.specs.Room.{RoomFor, Ending};

use store::{
    Refusal, Reply, Shape, Store, clear_consumer, clear_drain, drain_at, phase, put_all_handled,
    put_consumer, put_found, put_item, word,
};

// Stays: the buffer and the word `from` are two parameters; with a struct round the lent slice each function owes a clause more, that it still holds the same slice.
// The buffer has room for n items from the named word on; refusal 15 where it is too short for them, or ends before that word.
fn room_for(b: &[u32], from: u32, n: u32) -> Result<(), Refusal>
    ensures { RoomFor n (length b.now) from result }
{
    if b.len() < from as usize + 2 * (n as usize) {
        return Err(Refusal::BufferShort);
    }
    Ok(())
}

// The first n pairs of the drain area go into a part of the buffer.
fn hand_over(s: &[u32], z: Shape, part: &mut [u32], n: u32)
    requires room { Room (sizes z) s.now }
    requires n_le_most_drained { (n ≤ most_drained) × (2 * n ≤ length part.old) }
    ensures { part.new ≡ sets part.old 0 (item_words (items_marked (reader (sizes z) s.now) n)) }
{
    let pairs = (drain_at(z) + word::PAIRS) as usize;
    // Stays: no `copy_from_slice`, for which an archive for C would need `memmove` of its host.
    for i in 0..n as usize {
        part[2 * i] = s[pairs + 2 * i];
        part[2 * i + 1] = s[pairs + 2 * i + 1];
    }
}

// The drain ends with its first n items: they go into the buffer from the named word, and what it used is zero.
fn end_with(s: &mut [u32], z: Shape, n: u32, b: &mut [u32], from: u32) -> Reply
    requires room { Room (sizes z) s.old }
    requires n_le_most_drained { (n ≤ most_drained) × (from + 2 * n ≤ length b.old) }
    ensures { left (Ok result) s.new b.new from ≡ does (ends_with n) z s.old b.old from }
{
    let at = from as usize;
    hand_over(s, z, &mut b[at..], n);
    clear_consumer(s, z);
    clear_drain(s, z);
    Reply::Drained(n)
}

// The dequeue ends and answers empty. A drain ends with the items that it has marked, 0 for none. What the scan has read is zero then.
pub fn end_empty(s: &mut [u32], z: Shape, b: &mut [u32], from: u32) -> Result<Reply, Refusal>
    requires { Admitted (sizes z) s.old }
    ensures { left result s.new b.new from ≡ does ends_empty z s.old b.old from }
{
    let store = Store { words: s, shape: z };
    let d = store.drain();
    if d.limit == 0 {
        put_all_handled(s, z, 0);
        clear_consumer(s, z);
        return Ok(Reply::Empty);
    }
    room_for(b, from, d.count)?;
    put_all_handled(s, z, 0);
    Ok(end_with(s, z, d.count, b, from))
}

// Whether a drain that has marked n items ends: the limit is reached, or its first front was not set. Refusal 15 where it ends and the buffer
// has no room for them.
pub fn drain_ending(store: &Store, n: u32, b: &[u32], from: u32) -> Result<bool, Refusal>
    ensures { Ending (size store.now) store.now.words.now n (length b.now) from result }
{
    let ends = (n == store.drain().limit) | (store.consumer().cursor_position == 1);
    if ends {
        room_for(b, from, n)?;
    }
    Ok(ends)
}

// A drain that has marked n items ends, or goes back to phase 1.
pub fn go_on(s: &mut [u32], z: Shape, n: u32, ends: bool, b: &mut [u32], from: u32) -> Reply
    requires room { Room (sizes z) s.old }
    requires n_le_most_drained { (n ≤ most_drained) × (ends ≡ true → from + 2 * n ≤ length b.old) }
    ensures { left (Ok result) s.new b.new from ≡ does (onward n ends) z s.old b.old from }
{
    if ends {
        return end_with(s, z, n, b, from);
    }
    put_found(s, z, 0, 0);
    put_item(s, z, 0, 0);
    put_consumer(s, z, word::PHASE, phase::FRONT);
    Reply::Going
}
