// *Open* (document 01, "Calls"), on any words.
#![tactic(auto)]

ghost use Rattle.std.specs.Prelude.{◌≡◌, [], ◌∷◌};
ghost use Rattle.rules.specs.Sizes.{content_words, first_record};
ghost use Rattle.rules.specs.Cell.{writes, ◌:=◌, content, last_claimed, tail_record, head_record, place, used};
ghost use Rattle.rules.specs.Request.{open_store};
ghost use Rattle.store.specs.Shape.{sizes};
ghost use Rattle.store.specs.Outcome.{left};
ghost use Rattle.store.specs.Store.{Room};

use admission::{sizes_in_range, store_words};
use store::{
    Refusal, Reply, Shape, clear, put_content, put_last_claimed, put_part, put_use, record_at,
    size, usage, word,
};

// The sizes and first words of a store.
fn write_contents(s: &mut [u32], z: Shape)
    requires { Room (sizes z) s.old }
    ensures { s.new ≡ writes (sizes z) s.old (content 0 := z.entries ∷ content 1 := z.records ∷ content 2 := z.producers ∷ content 3 := z.starts ∷ content 4 := content_words ∷ content 5 := first_record (sizes z) ∷ []) }
{
    put_content(s, z, word::ENTRIES, z.entries);
    put_content(s, z, word::RECORDS, z.records);
    put_content(s, z, word::PRODUCERS, z.producers);
    put_content(s, z, word::STARTS_ALLOWED, z.starts);
    put_content(s, z, word::FIRST_THREAD, size::CONTENT_WORDS);
    put_content(s, z, word::FIRST_RECORD, record_at(z, 0));
}

// Record 0 linked with place 1 as head and tail record, and the last one claimed.
fn link_first(s: &mut [u32], z: Shape)
    requires { Room (sizes z) s.old }
    ensures { s.new ≡ writes (sizes z) s.old (tail_record := 1 ∷ head_record := 1 ∷ last_claimed := 1 ∷ place 0 := 1 ∷ used 0 := 2 ∷ []) }
{
    put_content(s, z, word::TAIL_RECORD, 1);
    put_content(s, z, word::HEAD_RECORD, 1);
    put_last_claimed(s, z, 1);
    put_part(s, z, 0, word::PLACE, 1);
    put_use(s, z, 0, usage::LINKED);
}

// *Open* zeroes the store, writes the contents, and links record 0. It is lent no buffer.
pub fn open_store(s: &mut [u32], z: Shape) -> Result<Reply, Refusal>
    ensures { left result s.new [] 0 ≡ open_store (sizes z) s.old }
{
    if !sizes_in_range(z) {
        return Err(Refusal::Sizes);
    }
    let words = store_words(z);
    if s.len() < words {
        return Err(Refusal::Short);
    }
    clear(s, 0, words as u32);
    write_contents(s, z);
    link_first(s, z);
    Ok(Reply::Done)
}
