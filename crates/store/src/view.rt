// An admitted store, lent to be read: what its words hold, by name.
ghost use Rattle.std.specs.Prelude.{◌≡◌, ◌+◌, ◌*◌, ◌<◌, ◌≤◌};
ghost use Rattle.rules.specs.Sizes.{first_record, record_words, store_words, most_entries, most_place};
ghost use Rattle.rules.specs.Cell.{reader, place, used, content, last_claimed, all_handled, consumer, producer, part, entry, drain, step_count};
ghost use Rattle.rules.specs.Address.{There};
ghost use Rattle.store.specs.Shape.{sizes};
ghost use Rattle.store.specs.Store.{Admitted, Reads, Holds};

use super::{
    Consumer, Contents, Drain, Located, Producer, Refusal, Shape, Slot, drain_at, needed,
    record_at, size, word,
};

// The words of a store that passed admission, and its sizes.
#[derive(Clone, Copy)]
pub struct Store<'a> {
    pub words: &'a [u32],
    pub shape: Shape,
    ghost admitted: { Admitted (sizes shape) words.now },
}

// The word at an address, which is that of its cell.
fn word_at(s: &[u32], z: Shape, at: u32) -> u32
    requires admitted { Admitted (sizes z) s.now }
    requires at_bound { at < store_words (sizes z) }
    ensures { Holds (sizes z) s.now at result }
{
    s[at as usize]
}

impl<'a> Store<'a> {
    ghost use Rattle.store.specs.Rows.{ReadsContents, ReadsConsumer, ReadsProducer, ReadsDrain};
    ghost use Rattle.store.specs.Slot.{Slotted, Found};
    ghost use Rattle.store.specs.View.{size, cells};

    // The word at an address.
    fn word(&self, at: u32) -> u32
        requires { at < store_words (size self.now) }
        ensures { Holds (size self.now) self.now.words.now at result }
    {
        word_at(self.words, self.shape, at)
    }

    // Word k of the contents.
    fn content_word(&self, k: u32) -> u32
        requires { There (size self.now) (content k) }
        ensures { Reads (size self.now) self.now.words.now (content k) result }
    {
        self.word(k)
    }

    pub fn contents(&self) -> Contents
        ensures { ReadsContents (size self.now) self.now.words.now result }
    {
        Contents {
            tail: self.content_word(word::TAIL),
            tail_record: self.content_word(word::TAIL_RECORD),
            head_record: self.content_word(word::HEAD_RECORD),
            head_position: self.content_word(word::HEAD_POSITION),
            starts: self.content_word(word::STARTS),
        }
    }

    // The record claimed last, a link.
    pub fn last_claimed(&self) -> u32
        ensures { Reads (size self.now) self.now.words.now last_claimed result }
    {
        self.word(word::LAST_CLAIMED)
    }

    // Whether every entry read so far in the cursor's record was handled, the record entered at its first: 1, or 0 (document 02, U6).
    pub fn all_handled(&self) -> u32
        ensures { Reads (size self.now) self.now.words.now all_handled result }
    {
        self.word(word::ALL_HANDLED)
    }

    // Word k of the consumer.
    fn consumer_word(&self, k: u32) -> u32
        requires { There (size self.now) (consumer k) }
        ensures { Reads (size self.now) self.now.words.now (consumer k) result }
    {
        self.word(size::CONTENT_WORDS + k)
    }

    pub fn consumer(&self) -> Consumer
        ensures { ReadsConsumer (size self.now) self.now.words.now result }
    {
        Consumer {
            phase: self.consumer_word(word::PHASE),
            cursor_record: self.consumer_word(word::CURSOR_RECORD),
            cursor_position: self.consumer_word(word::CURSOR_POSITION),
            found_record: self.consumer_word(word::FOUND_RECORD),
            found_position: self.consumer_word(word::FOUND_POSITION),
            item_call: self.consumer_word(word::ITEM_CALL),
            item_value: self.consumer_word(word::ITEM_VALUE),
        }
    }

    // Word k of producer t.
    fn producer_word(&self, t: u32, k: u32) -> u32
        requires { There (size self.now) (producer t k) }
        ensures { Reads (size self.now) self.now.words.now (producer t k) result }
    {
        self.word(size::CONTENT_WORDS + size::THREAD_WORDS * t + k)
    }

    pub fn producer(&self, t: u32) -> Producer
        requires { (1 ≤ t) × (t ≤ self.now.shape.producers) }
        ensures { ReadsProducer (size self.now) self.now.words.now t result }
    {
        Producer {
            phase: self.producer_word(t, word::PHASE),
            call: self.producer_word(t, word::CALL),
            value: self.producer_word(t, word::VALUE),
            position: self.producer_word(t, word::POSITION),
            held: self.producer_word(t, word::HELD),
            claimed: self.producer_word(t, word::CLAIMED),
            backed: self.producer_word(t, word::BACKED),
        }
    }

    // The accepted steps of the call that thread t has under way; the consumer is thread 0.
    pub fn step_count(&self, t: u32) -> u32
        requires { t ≤ self.now.shape.producers }
        ensures { cells self.now (step_count t) ≡ result }
    {
        let at = size::CONTENT_WORDS + size::THREAD_WORDS * t + word::STEPS;
        self.word(at)
    }

    // Word j of record r, its entries' words included.
    fn record_word(&self, r: u32, j: u32) -> u32
        requires { (r < self.now.shape.records) × (j < record_words (size self.now)) }
        ensures { Holds (size self.now) self.now.words.now (first_record (size self.now) + r * record_words (size self.now) + j) result }
    {
        self.word(record_at(self.shape, r) + j)
    }

    // Word k of record r.
    pub fn part(&self, r: u32, k: u32) -> u32
        requires { There (size self.now) (part r k) }
        ensures { Reads (size self.now) self.now.words.now (part r k) result }
    {
        self.record_word(r, k)
    }

    // The use of record r.
    pub fn use_of(&self, r: u32) -> u32
        requires { r < self.now.shape.records }
        ensures { Reads (size self.now) self.now.words.now (used r) result }
    {
        self.part(r, word::USE)
    }

    // Word k of entry i of record r.
    pub fn entry(&self, r: u32, i: u32, k: u32) -> u32
        requires { There (size self.now) (entry r i k) }
        ensures { Reads (size self.now) self.now.words.now (entry r i k) result }
    {
        self.record_word(r, 4 + 3 * i + k)
    }

    // Word k of the drain area before its pairs.
    fn drain_word(&self, k: u32) -> u32
        requires { There (size self.now) (drain k) }
        ensures { Reads (size self.now) self.now.words.now (drain k) result }
    {
        self.word(drain_at(self.shape) + k)
    }

    pub fn drain(&self) -> Drain
        ensures { ReadsDrain (size self.now) self.now.words.now result }
    {
        Drain {
            limit: self.drain_word(word::LIMIT),
            count: self.drain_word(word::COUNT),
        }
    }

    // B × place: the position past record r's last.
    pub fn record_end(&self, r: u32) -> u32
        requires { r < self.now.shape.records }
        ensures { (self.now.shape.entries * cells self.now (place r) ≡ result) × (result ≤ most_entries * most_place) }
    {
        self.shape.entries * self.part(r, word::PLACE)
    }

    // Where position p stands in the record that a link names; refusal 9 where the link is none, or the position is outside the record.
    pub fn slot_in(&self, link: u32, p: u32) -> Result<Slot, Refusal>
        requires { (link ≤ self.now.shape.records) × (p ≤ self.now.shape.starts) }
        ensures { Slotted (size self.now) self.now.words.now link p result }
    {
        let record = needed(link)?;
        let end = self.record_end(record);
        if p == end {
            return Ok(Slot::End { record });
        }
        if end < p {
            return Err(Refusal::Broken);
        }
        if p + self.shape.entries < end {
            return Err(Refusal::Broken);
        }
        Ok(Slot::At {
            record,
            index: p + self.shape.entries - end,
        })
    }

    // The entry at which position p stands in the record that a link names; refusal 9 where it stands at none.
    pub fn locate(&self, link: u32, p: u32) -> Result<Located, Refusal>
        requires { (link ≤ self.now.shape.records) × (p ≤ self.now.shape.starts) }
        ensures { Found (size self.now) self.now.words.now link p result }
    {
        match self.slot_in(link, p)? {
            Slot::End { record: _ } => Err(Refusal::Broken),
            Slot::At { record, index } => Ok(Located { record, index }),
        }
    }
}
