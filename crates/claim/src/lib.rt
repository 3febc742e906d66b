// The next free record, and the phases that claim one (document 01, "Calls"; document 02, U1 and U7). The words are admitted.
#![tactic(auto)]

ghost use Rattle.std.specs.Prelude.{◌≡◌, ◌≤◌, ◌<◌};
ghost use Rattle.rules.specs.Sizes.{most_records};
ghost use Rattle.rules.specs.Cell.{reader};
ghost use Rattle.rules.specs.Free.{next_free};
ghost use Rattle.rules.specs.Producer.{claim, claim_record, claim_ahead};
ghost use Rattle.store.specs.declared.Reply.TheVariants.{Going};
ghost use Rattle.store.specs.Shape.{sizes};
ghost use Rattle.store.specs.Outcome.{left, does};
ghost use Rattle.store.specs.View.{size, cells};
ghost use Rattle.store.specs.Store.{Admitted};
ghost use Rattle.claim.specs.Search.{link_of, Finds};

use free_map::free_map;
use store::{
    Refusal, Reply, Shape, Store, clear_producer, phase, put_last_claimed, put_producer, put_use,
    size, usage, wipe_record, word,
};

// The first set digit of a map from digit `from` on. (A shift by all 64 digits is none.)
fn first_set(map: u64, from: u32) -> Option<u32>
    requires { from ≤ most_records }
    ensures { Finds map from result }
{
    if size::MOST_RECORDS <= from {
        return None;
    }
    let rest = map >> from;
    if rest == 0 {
        return None;
    }
    Some(from + rest.trailing_zeros())
}

// The first free record after the one claimed last, counting upward and past the end to record 0.
pub fn next_free(store: &Store) -> Option<u32>
    ensures { (next_free (size store.now) (cells store.now) ≡ link_of result) × (link_of result ≤ store.now.shape.records) }
{
    let map = free_map(store);
    let last = store.last_claimed() - 1;
    first_set(map, last + 1).or(first_set(map, 0))
}

// Claiming zeroes record r and gives it use 1, and word 11 holds it; to phase p.
fn claim(s: &mut [u32], z: Shape, t: u32, r: u32, p: u32)
    requires admitted { Admitted (sizes z) s.old }
    requires le_t { (1 ≤ t) × (t ≤ z.producers) × (r < z.records) }
    ensures { left (Ok Going) s.new ≡ does (λ z σ. claim z σ t r p) z s.old }
{
    wipe_record(s, z, r);
    put_use(s, z, r, usage::CLAIMED);
    put_last_claimed(s, z, r + 1);
    put_producer(s, z, t, word::CLAIMED, r + 1);
    put_producer(s, z, t, word::PHASE, p);
}

// 4. Claim a record; to 5. Refusal 8: no record free.
pub fn claim_record(s: &mut [u32], z: Shape, t: u32) -> Result<Reply, Refusal>
    requires admitted { Admitted (sizes z) s.old }
    requires le_t { (1 ≤ t) × (t ≤ z.producers) }
    ensures { left result s.new ≡ does (λ z σ. claim_record z σ t (next_free z σ)) z s.old }
{
    let store = Store { words: s, shape: z };
    let record = next_free(&store).ok_or(Refusal::NoneFree)?;
    claim(s, z, t, record, phase::LINK);
    Ok(Reply::Going)
}

// 10. If none is free, end; else claim; to 11.
pub fn claim_ahead(s: &mut [u32], z: Shape, t: u32) -> Result<Reply, Refusal>
    requires admitted { Admitted (sizes z) s.old }
    requires le_t { (1 ≤ t) × (t ≤ z.producers) }
    ensures { left result s.new ≡ does (λ z σ. claim_ahead z σ t (next_free z σ)) z s.old }
{
    let store = Store { words: s, shape: z };
    let Some(record) = next_free(&store) else {
        clear_producer(s, z, t);
        return Ok(Reply::Ended);
    };
    claim(s, z, t, record, phase::LINK_AHEAD);
    Ok(Reply::Going)
}
