// Lines of four decimal numbers: their meaning is in specs/Lines.antt.
#![tactic(auto)]

ghost use Rattle.std.specs.Prelude.{◌≡◌};
ghost use Rattle.lines.specs.Lines.{separator, line_after, ending, Parses};

// The most numbers that a program reads of a recording: 8,192 events.
pub const MOST_NUMBERS: usize = 32_768;

// Why a text is refused: it holds more numbers than the buffer has entries, or a bad line, the first by its number.
#[derive(Clone, Copy, Debug, PartialEq, Eq)]
pub enum ParseError {
    TooLong,
    BadLine(usize),
}

// The byte that parts a number from the next, after so many numbers: a newline after every fourth, else a space.
pub fn separator_after(count: usize) -> u8
    ensures { result ≡ separator count }
{
    if count % 4 == 0 { b'\n' } else { b' ' }
}

// The line of the number that follows so many numbers, counted from 1.
pub fn line_after(count: usize) -> usize
    ensures { result ≡ line_after count }
{
    count / 4 + 1
}

// The answer where the text ends after so many numbers: they are whole lines, or the last line is bad.
fn end_after(count: usize) -> Result<usize, ParseError>
    ensures { result ≡ ending count }
{
    if count % 4 != 0 {
        return Err(ParseError::BadLine(line_after(count)));
    }
    Ok(count)
}

// The numbers of a text, at the beginning of the buffer; the rest of it stays as it was.
pub fn parse(s: &[u8], numbers: &mut [u32]) -> Result<usize, ParseError>
    ensures { Parses s.now numbers.old numbers.new result }
{
    let mut at = 0;
    let mut count = 0;
    // Stays: a number's digits say where the next one begins, so no range and no iterator gives the positions.
    while at < s.len() {
        if numbers.len() <= count {
            return Err(ParseError::TooLong);
        }
        let line = line_after(count);
        let number = text::read_number(s, at).ok_or(ParseError::BadLine(line))?;
        numbers[count] = number.value;
        count += 1;
        let Some(b) = s.get(number.next) else {
            return end_after(count);
        };
        if *b != separator_after(count) {
            return Err(ParseError::BadLine(line));
        }
        at = number.next + 1;
    }
    end_after(count)
}
