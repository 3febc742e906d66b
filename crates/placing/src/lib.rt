// The words of a start enqueue (document 01, "Calls"; document 02, U8).
#![tactic(auto)]

ghost use Rattle.std.specs.Prelude.{◌≡◌, suc, ◌≤◌, ◌<◌};
ghost use Rattle.rules.specs.Cell.{reader, writes, tail, starts};
ghost use Rattle.rules.specs.Request.{start_writes};
ghost use Rattle.store.specs.Shape.{sizes};
ghost use Rattle.store.specs.Store.{Admitted};

use store::{Shape, Store, phase, put_content, put_producer, word};

// The words of an accepted start: call number starts + 1; L becomes tail, tail grows by one, which is the call's first step; phase 2. Returns the call
// number.
pub fn place_call(s: &mut [u32], z: Shape, t: u32, v: u32) -> u32
    requires admitted { Admitted (sizes z) s.old }
    requires le_t { (1 ≤ t) × (t ≤ z.producers) }
    requires starts_bound { (reader (sizes z) s.old starts < z.starts) × (reader (sizes z) s.old tail < z.starts) }
    ensures { (result ≡ suc (reader (sizes z) s.old starts)) × (s.new ≡ writes (sizes z) s.old (start_writes (reader (sizes z) s.old) t v)) }
{
    let store = Store { words: s, shape: z };
    let q = store.contents();
    let number = q.starts + 1;
    put_content(s, z, word::STARTS, number);
    put_content(s, z, word::TAIL, q.tail + 1);
    put_producer(s, z, t, word::PHASE, phase::LOAD);
    put_producer(s, z, t, word::CALL, number);
    put_producer(s, z, t, word::VALUE, v);
    put_producer(s, z, t, word::POSITION, q.tail);
    put_producer(s, z, t, word::STEPS, 1);
    number
}
