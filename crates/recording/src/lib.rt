// What is printed for a recording: the judge's word on a history's words, and on a text of lines, one event each.
#![tactic(auto)]

ghost use Rattle.std.specs.Prelude.{◌+◌, ◌≤◌, length};
ghost use Rattle.history.specs.Form.{most_events, read};
ghost use Rattle.reading.specs.Refusal.{numbered};
ghost use Rattle.text.specs.Wrote.{Wrote};
ghost use Rattle.recording.specs.Report.{printed_reading, word_of, order_line, printed_judged, most_order_line, most_word, most_report, reported};

use lines::{MOST_NUMBERS, ParseError};
use reading::{MOST_EVENTS, Refusal};

// A bound on the bytes of a report (specs/Report.antt): a word, and the line of an order with a number for each event.
pub const MOST_REPORT: usize = 20 + 6 + 11 * MOST_EVENTS;

// Prints the word for the judge's reply at a position, and answers the position after it.
fn print_word(reply: Result<Option<u32>, Refusal>, out: &mut [u8], at: usize) -> usize
    requires { at + most_word ≤ length out.old }
    ensures { Wrote out.old at (word_of (numbered reply)) out.new result }
{
    match reply {
        Ok(Some(_)) => text::write_bytes(out, at, b"explained\n"),
        Ok(None) => text::write_bytes(out, at, b"unexplained\n"),
        Err(refusal) => protocol::print_numbered(out, at, b"refused ", u32::from(refusal)),
    }
}

// Prints the judge's word on the words of a history at a position, and answers the position after it. Never inlined: the judge's room on the
// stack is taken only here.
#[inline(never)]
pub fn print_verdict(words: &[u32], out: &mut [u8], at: usize) -> usize
    requires { at + most_word ≤ length out.old }
    ensures { Wrote out.old at (printed_reading (read most_events words.now)) out.new result }
{
    let mut order = [0u32; MOST_EVENTS];
    let reply = judge::judge_alone(words, &mut order);
    print_word(reply, out, at)
}

// Prints the line of an order at a position, and answers the position after it.
fn print_order(numbers: &[u32], out: &mut [u8], at: usize) -> usize
    requires { at + most_order_line (length numbers.now) ≤ length out.old }
    ensures { Wrote out.old at (order_line numbers.now) out.new result }
{
    let mut next = text::write_bytes(out, at, b"order");
    for n in numbers {
        next = text::write_bytes(out, next, b" ");
        next = text::write_number(out, next, *n);
    }
    text::write_bytes(out, next, b"\n")
}

// Prints the judge's word on the words of a history at a position, and its order if it is explained; the answer is the position after them.
fn print_judged(words: &[u32], out: &mut [u8], at: usize) -> usize
    requires { at + most_report ≤ length out.old }
    ensures { Wrote out.old at (printed_judged (read most_events words.now)) out.new result }
{
    let mut order = [0u32; MOST_EVENTS];
    let reply = judge::judge_alone(words, &mut order);
    let next = print_word(reply, out, at);
    match reply {
        Ok(Some(count)) => print_order(&order[..count as usize], out, next),
        Ok(None) => next,
        Err(_) => next,
    }
}

// Prints what a text of lines gives: the judge's word on its events and its order, `bad line NUMBER` or `too long`. The answer is how many bytes.
pub fn report(text: &[u8], out: &mut [u8; MOST_REPORT]) -> usize
    ensures { Wrote out.old 0 (reported text.now) out.new result }
{
    let mut numbers = [0u32; MOST_NUMBERS];
    match lines::parse(text, &mut numbers) {
        Ok(count) => print_judged(&numbers[..count], out, 0),
        Err(ParseError::BadLine(line)) => {
            protocol::print_numbered(out, 0, b"bad line ", line as u32)
        }
        Err(ParseError::TooLong) => text::write_bytes(out, 0, b"too long\n"),
    }
}
