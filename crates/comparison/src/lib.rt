// Two recordings of one run compared (document 02, U10): whether they have the same calls, and the rest of the longer one after their
// longest shared beginning. Its meaning is in specs/Compared.antt; what a yes of keeps_precedence gives, in specs/Decides.antt.
#![tactic(auto)]

ghost use Rattle.std.specs.Prelude.{◌≡◌, cond, ◌≤◌, min, leb, drop};
ghost use Rattle.history.specs.Form.{most_events, read};
ghost use Rattle.matching.specs.Rows.{events_in};
ghost use Rattle.comparison.specs.declared.Recording.TheVariants.{First, Second};
ghost use Rattle.comparison.specs.Parts.{reply_of, comparison_of, Both, Checks, Admits, same_in};
ghost use Rattle.comparison.specs.Compared.{shared, rest_of_longer, compared, of_two, part_of, handed_back, keeps_to};
ghost use Rattle.comparison.specs.Reply.{recording_number, with_refused, with_rest, number_of, most_word, reply_words, Replies};

use matching::same_event;
use reading::{MEMORY, MOST_EVENTS, Refusal};

// One of the two recordings.
#[derive(Clone, Copy, PartialEq, Eq)]
pub enum Recording {
    First = 1,
    Second = 2,
}

impl From<Recording> for u32 {
    ghost from_gives = { λ recording number. number ≡ recording_number recording };

    fn from(recording: Recording) -> u32 {
        recording as u32
    }
}

// Whose words were refused, and why: by 10, 12 or 13.
#[derive(Clone, Copy, PartialEq, Eq)]
pub struct RefusedRecording {
    pub recording: Recording,
    pub refusal: Refusal,
}

// A part of one of the recordings, from a word on to its end.
#[derive(Clone, Copy, PartialEq, Eq)]
pub struct Rest {
    pub recording: Recording,
    pub from: usize,
}

// The reply, on Ok whether both recordings have the same calls, and the part that is handed back.
#[derive(Clone, Copy)]
pub struct Compared {
    pub reply: Result<bool, RefusedRecording>,
    pub rest: Rest,
}

// Checks the words of a recording.
fn check(recording: Recording, words: &[u32]) -> Result<(), RefusedRecording>
    ensures { Checks recording words.now result }
{
    let mut memory = [0u32; MEMORY];
    match reading::read(words, MOST_EVENTS, &mut memory) {
        Ok(_) => Ok(()),
        Err(refusal) => Err(RefusedRecording { recording, refusal }),
    }
}

// Checks both recordings, the first one first.
// Stays: first and second are two slices in each call, as the C interface lends them; a struct of both would be taken apart in each function.
fn admit(first: &[u32], second: &[u32]) -> Result<(), RefusedRecording>
    ensures { Admits first.now second.now result }
{
    check(Recording::First, first)?;
    check(Recording::Second, second)
}

// How many whole events the two recordings share at their beginning.
fn shared(first: &[u32], second: &[u32]) -> usize
    ensures { (result ≡ shared first.now second.now) × (result ≤ events_in first.now) }
{
    let events = (first.len() / 4).min(second.len() / 4);
    for k in 0..events {
        if !same_event(first, k, second, k) {
            return k;
        }
    }
    events
}

// The longer recording, the first if they are equally long.
fn longer(first: usize, second: usize) -> Recording
    ensures { result ≡ cond (leb second first) First Second }
{
    if second <= first {
        Recording::First
    } else {
        Recording::Second
    }
}

// The rest of the longer recording after their longest shared beginning.
fn rest_of_longer(first: &[u32], second: &[u32]) -> Rest
    ensures { result ≡ rest_of_longer first.now second.now }
{
    Rest {
        recording: longer(first.len(), second.len()),
        from: 4 * shared(first, second),
    }
}

// Whether two recordings that are not refused have the same calls.
fn same_calls(first: &[u32], second: &[u32]) -> bool
    requires { Both first.now second.now }
    ensures { result ≡ same_in (read most_events first.now) (read most_events second.now) }
{
    let mut places = [0u32; MOST_EVENTS];
    matching::matches(first, second, &mut places)
}

// Compares two recordings.
pub fn compare(first: &[u32], second: &[u32]) -> Compared
    ensures { comparison_of result ≡ compared first.now second.now }
{
    match admit(first, second) {
        Ok(()) => Compared {
            reply: Ok(same_calls(first, second)),
            rest: rest_of_longer(first, second),
        },
        Err(refused) => Compared {
            reply: Err(refused),
            rest: Rest {
                recording: Recording::First,
                from: first.len(),
            },
        },
    }
}

// The words from one on; none where there is no such word.
fn from_word(words: &[u32], from: usize) -> &[u32]
    ensures { result.now ≡ drop from words.now }
{
    words.get(from..).unwrap_or(&[])
}

// The words of a rest of one of two recordings.
pub fn part<'a>(first: &'a [u32], second: &'a [u32], rest: Rest) -> &'a [u32]
    ensures { result.now ≡ part_of rest first.now second.now }
{
    match rest.recording {
        Recording::First => from_word(first, rest.from),
        Recording::Second => from_word(second, rest.from),
    }
}

// The part that is handed back: the rest of the longer recording, or on a refusal the empty end of the first.
pub fn hand_back<'a>(first: &'a [u32], second: &'a [u32]) -> &'a [u32]
    ensures { result.now ≡ handed_back first.now second.now }
{
    part(first, second, compare(first, second).rest)
}

// Whether two recordings that are not refused have the same calls and the second keeps to the first.
fn keeps(first: &[u32], second: &[u32]) -> bool
    requires { Both first.now second.now }
    ensures { result ≡ keeps_to (read most_events first.now) (read most_events second.now) }
{
    let mut places = [0u32; MOST_EVENTS];
    matching::matches(first, second, &mut places) && matching::in_order(second, &places)
}

// Whether the second recording may be trusted on the word of the first (specs/Decides.antt).
pub fn keeps_precedence(first: &[u32], second: &[u32]) -> bool
    ensures { result ≡ keeps_to (read most_events first.now) (read most_events second.now) }
{
    admit(first, second).is_ok() && keeps(first, second)
}

// A number of words as a word, or the largest one.
fn as_word(words: usize) -> u32
    ensures { result ≡ min words most_word }
{
    words.min(u32::MAX as usize) as u32
}

// The reply's number; whose words were refused goes to word 0.
fn deliver_reply(reply: Result<bool, RefusedRecording>, said: &mut [u32; 4]) -> u32
    ensures { (result ≡ number_of (reply_of reply)) × (said.new ≡ with_refused (reply_of reply) said.old) }
{
    match reply {
        Ok(same) => u32::from(!same),
        Err(refused) => {
            said[0] = refused.recording.into();
            refused.refusal.into()
        }
    }
}

// The recording that the rest is of goes to word 1, and the word at which it begins to word 2.
fn deliver_rest(rest: Rest, said: &mut [u32; 4])
    ensures { said.new ≡ with_rest rest said.old }
{
    said[1] = rest.recording.into();
    said[2] = as_word(rest.from);
}

fn deliver(compared: Compared, said: &mut [u32; 4]) -> u32
    ensures { (result ≡ number_of (reply_of compared.reply)) × (said.new ≡ reply_words (comparison_of compared) said.old) }
{
    let number = deliver_reply(compared.reply, said);
    deliver_rest(compared.rest, said);
    number
}

// Compares two recordings, for programs in C.
pub fn recordings_compare(first: &[u32], second: &[u32], reply: &mut [u32; 4]) -> u32
    ensures { Replies first.now second.now reply.old reply.new result }
{
    deliver(compare(first, second), reply)
}

// Whether the second recording may be trusted on the word of the first: 0 yes, 1 no.
pub fn recordings_keep_precedence(first: &[u32], second: &[u32]) -> u32
    ensures { result ≡ cond (keeps_to (read most_events first.now) (read most_events second.now)) 0 1 }
{
    u32::from(!keeps_precedence(first, second))
}
