// The fold (document 02, U6): whether a record that the scan leaves is folded, and what joins its prev and next. The words are admitted.
#![tactic(auto)]

ghost use Rattle.std.specs.Prelude.{◌≡◌, ◌<◌};
ghost use Rattle.rules.specs.Cell.{reader, writes};
ghost use Rattle.rules.specs.Consumer.{folded, is_read};
ghost use Rattle.store.specs.Shape.{sizes};
ghost use Rattle.store.specs.View.{size, cells};
ghost use Rattle.store.specs.Store.{Room, Admitted};

use store::{Shape, Store, put_part, put_use, usage, word};

// Whether the scan has read all entries of record r as handled, and it is not the head record.
pub fn is_read(store: &Store, r: u32) -> bool
    requires { r < store.now.shape.records }
    ensures { is_read (size store.now) (cells store.now) r ≡ result }
{
    (store.all_handled() == 1) & (store.contents().head_record != r + 1)
}

// Record r is folded: the records before and behind it are joined to each other, and it is retired. It keeps its own links.
pub fn fold(s: &mut [u32], z: Shape, r: u32, before: u32, behind: u32)
    requires room { Room (sizes z) s.old }
    requires r_lt_records { (r < z.records) × (before < z.records) × (behind < z.records) }
    ensures { s.new ≡ writes (sizes z) s.old (folded (sizes z) (reader (sizes z) s.old) r before behind) }
{
    let next = behind + 1;
    let prev = before + 1;
    put_part(s, z, before, word::NEXT, next);
    put_part(s, z, behind, word::PREV, prev);
    put_use(s, z, r, usage::RETIRED);
}
