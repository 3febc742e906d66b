// One phase of a thread, by its number (document 01, "Calls"). The words are admitted and the thread is there.
#![tactic(auto)]

ghost use Rattle.std.specs.Prelude.{◌≡◌, ◌≤◌};
ghost use Rattle.rules.specs.Free.{next_free};
ghost use Rattle.rules.specs.Request.{phase_step};
ghost use Rattle.store.specs.Shape.{sizes};
ghost use Rattle.store.specs.Outcome.{left, does};
ghost use Rattle.store.specs.Store.{Admitted};

use claim::{claim_ahead, claim_record};
use dequeue::{read_front, read_tail};
use enqueue::{go_back, load_tail, look_next, set_entry, shift_tail, write_entry};
use linking::{link_ahead, link_claimed};
use rescan::rescan_on;
use retiring::retire_head;
use scanning::{read_entry, scan_on};
use store::{Refusal, Reply, Shape, Store};
use taking::{mark_handled, read_item};

// One phase of thread t, not yet counted. Only the end of a drain looks at the buffer.
pub fn step_thread(
    s: &mut [u32],
    z: Shape,
    t: u32,
    b: &mut [u32],
    from: u32,
) -> Result<Reply, Refusal>
    requires admitted { Admitted (sizes z) s.old }
    requires t_le_producers { t ≤ z.producers }
    ensures { left result s.new b.new from ≡ does (λ z σ. phase_step (next_free z σ) t z σ) z s.old b.old from }
{
    let store = Store { words: s, shape: z };
    // Stays: the phase, copied to a local, is matched by its number, with ranges for those that are none, as the project has it.
    if t == 0 {
        let phase = store.consumer().phase;
        return match phase {
            1 => read_front(s, z, b, from),
            2 => read_tail(s, z, b, from),
            3 => scan_on(s, z, b, from),
            4 => read_entry(s, z),
            5 => rescan_on(s, z),
            6 => read_item(s, z),
            7 => mark_handled(s, z, b, from),
            8 => retire_head(s, z, b, from),
            0 | 9..=u32::MAX => Err(Refusal::Idle),
        };
    }
    let phase = store.producer(t).phase;
    match phase {
        2 => load_tail(s, z, t),
        3 => look_next(s, z, t),
        4 => claim_record(s, z, t),
        5 => link_claimed(s, z, t),
        6 => shift_tail(s, z, t),
        7 => go_back(s, z, t),
        8 => write_entry(s, z, t),
        9 => set_entry(s, z, t),
        10 => claim_ahead(s, z, t),
        11 => link_ahead(s, z, t),
        0 | 1 | 12..=u32::MAX => Err(Refusal::Idle),
    }
}
