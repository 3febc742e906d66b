// What is printed for two recordings in one text, one event a line, with an empty line between them: their comparison. What is
// printed for which text is in specs/Report.antt.
#![tactic(auto)]

ghost use Rattle.std.specs.Prelude.{◌≡◌, cond, ◌++◌, ◌+◌, ◌*◌, ◌≤◌, length};
ghost use Rattle.history.specs.Form.{most_events, read};
ghost use Rattle.reading.specs.Refusal.{refusal_number};
ghost use Rattle.comparison.specs.Compared.{keeps_to};
ghost use Rattle.comparison.specs.Parts.{reply_of};
ghost use Rattle.comparison.specs.Reply.{recording_number};
ghost use Rattle.lines.specs.Lines.{most_numbers, reading};
ghost use Rattle.protocol.specs.Printed.{number_pair};
ghost use Rattle.protocol.specs.Words.{refused_word};
ghost use Rattle.text.specs.Wrote.{Wrote};
ghost use Rattle.two_recordings.specs.Report.{empty_line, event_lines, kept_line, not_kept_line, printed_reply, printed_precedence, printed_comparison, most_reply_line, most_precedence_line, most_report, printed_second, printed_after, reported};

use comparison::{Recording, RefusedRecording};
use lines::{MOST_NUMBERS, ParseError};

// A bound on the bytes of a report (specs/Report.antt): the line of a reply, the line of the precedence, and the lines of a recording.
pub const MOST_REPORT: usize = 30 + 20 + 11 * MOST_NUMBERS;

// The position of the first empty line, the end of the text where it has none.
fn empty_line(text: &[u8]) -> usize
    ensures { result ≡ empty_line text.now }
{
    let mut last = b'\n';
    for (i, byte) in text.iter().enumerate() {
        if last == b'\n' && *byte == b'\n' {
            return i;
        }
        last = *byte;
    }
    text.len()
}

// Prints events, one a line, at a position, and answers the position after them.
// Stays: a buffer and a position side by side, since the clause of `report`, named in docs/CLAIMS.md, gives the whole lent buffer.
fn print_events(numbers: &[u32], out: &mut [u8], at: usize) -> usize
    requires { at + 11 * length numbers.now ≤ length out.old }
    ensures { Wrote out.old at (event_lines 0 numbers.now) out.new result }
{
    let mut next = at;
    for (i, number) in numbers.iter().enumerate() {
        let end = lines::separator_after(i + 1);
        next = protocol::print_number(out, next, *number, end);
    }
    next
}

// Prints which recording was refused with which number.
fn print_refused(refused: RefusedRecording, out: &mut [u8], at: usize) -> usize
    requires { at + most_reply_line ≤ length out.old }
    ensures { Wrote out.old at (refused_word ++ number_pair (recording_number refused.recording) (refusal_number refused.refusal)) out.new result }
{
    let number = refused.refusal.into();
    match refused.recording {
        Recording::First => protocol::print_numbered(out, at, b"refused 1 ", number),
        Recording::Second => protocol::print_numbered(out, at, b"refused 2 ", number),
    }
}

// Prints the line of a reply.
fn print_reply(reply: Result<bool, RefusedRecording>, out: &mut [u8], at: usize) -> usize
    requires { at + most_reply_line ≤ length out.old }
    ensures { Wrote out.old at (printed_reply (reply_of reply)) out.new result }
{
    match reply {
        Ok(true) => text::write_bytes(out, at, b"same calls\n"),
        Ok(false) => text::write_bytes(out, at, b"other calls\n"),
        Err(refused) => print_refused(refused, out, at),
    }
}

// Prints whether the precedence is kept.
fn print_kept(kept: bool, out: &mut [u8], at: usize) -> usize
    requires { at + most_precedence_line ≤ length out.old }
    ensures { Wrote out.old at (cond kept kept_line not_kept_line) out.new result }
{
    if kept {
        text::write_bytes(out, at, b"precedence kept\n")
    } else {
        text::write_bytes(out, at, b"precedence not kept\n")
    }
}

// Prints the line that follows `same calls`; another reply has none.
fn print_precedence(
    reply: Result<bool, RefusedRecording>,
    first: &[u32],
    second: &[u32],
    out: &mut [u8],
    at: usize,
) -> usize
    requires { at + most_precedence_line ≤ length out.old }
    ensures { Wrote out.old at (printed_precedence (reply_of reply) (keeps_to (read most_events first.now) (read most_events second.now))) out.new result }
{
    match reply {
        Ok(true) => print_kept(comparison::keeps_precedence(first, second), out, at),
        Ok(false) | Err(_) => at,
    }
}

// Prints the comparison of two recordings: the reply, the precedence, and the part that is handed back.
fn print_comparison<'a>(first: &'a [u32], second: &'a [u32], out: &mut [u8], at: usize) -> usize
    requires { (length first.now ≤ most_numbers) × (length second.now ≤ most_numbers) × (at + most_report ≤ length out.old) }
    ensures { Wrote out.old at (printed_comparison first.now second.now) out.new result }
{
    let compared = comparison::compare(first, second);
    let after_reply = print_reply(compared.reply, out, at);
    let after_precedence = print_precedence(compared.reply, first, second, out, after_reply);
    let part = comparison::part(first, second, compared.rest);
    print_events(part, out, after_precedence)
}

// Prints what the lines of the second recording give, after a good first one: the comparison, `bad line NUMBER` or `too long`.
fn print_second(first: &[u32], text: &[u8], out: &mut [u8]) -> usize
    requires { (length first.now ≤ most_numbers) × (most_report ≤ length out.old) }
    ensures { Wrote out.old 0 (printed_second first.now (reading text.now most_numbers)) out.new result }
{
    let mut second = [0u32; MOST_NUMBERS];
    match lines::parse(text, &mut second) {
        Ok(count) => print_comparison(first, &second[..count], out, 0),
        Err(ParseError::BadLine(line)) => {
            let before = lines::line_after(first.len());
            protocol::print_numbered(out, 0, b"bad line ", (before + line) as u32)
        }
        Err(ParseError::TooLong) => text::write_bytes(out, 0, b"too long\n"),
    }
}

// Prints what a text gives whose first recording is good and ends at a position: where no empty line is, the line after it is bad.
fn print_after(first: &[u32], text: &[u8], end: usize, out: &mut [u8]) -> usize
    requires { (length first.now ≤ most_numbers) × (most_report ≤ length out.old) }
    ensures { Wrote out.old 0 (printed_after first.now text.now end) out.new result }
{
    if text.len() <= end {
        let line = lines::line_after(first.len());
        return protocol::print_numbered(out, 0, b"bad line ", line as u32);
    }
    print_second(first, &text[end + 1..], out)
}

// Prints what a text of two recordings gives: their comparison, `bad line NUMBER` or `too long`. The answer is how many bytes.
// Stays: the arms of a bad line are like those of `recording::report`; one function with a closure would be no plainer, its contract longer than they are.
pub fn report(text: &[u8], out: &mut [u8; MOST_REPORT]) -> usize
    ensures { Wrote out.old 0 (reported text.now) out.new result }
{
    let end = empty_line(text);
    let mut first = [0u32; MOST_NUMBERS];
    match lines::parse(&text[..end], &mut first) {
        Ok(count) => print_after(&first[..count], text, end, out),
        Err(ParseError::BadLine(line)) => {
            protocol::print_numbered(out, 0, b"bad line ", line as u32)
        }
        Err(ParseError::TooLong) => text::write_bytes(out, 0, b"too long\n"),
    }
}
