// The line writer: steps done, letter, numbers in order, into the start of a lent buffer, or refused with 16; and the same of a row of
// numbers. The first pass counts the bytes; where the buffer has room for them the second one writes them in order.
#![tactic(auto)]

ghost use Rattle.std.specs.Prelude.{◌+◌, ◌/◌, ◌%◌, ◌<◌, ◌≤◌, ◌≡◌, ◌++◌, leb, length, set, drop};
ghost use Rattle.std.proofs.lemmas.List.Edits.{sets};
ghost use Rattle.lines.specs.Line.{digit, decimal, spaced, line, row, behind, text, buffer_after, written_number, written_told, writing};

const SPACE: u8 = b' ';

const NEWLINE: u8 = b'\n';

// Number 16 of 01: the buffer is shorter than the line.
#[derive(Clone, Copy, Debug, PartialEq, Eq)]
pub struct TooShort;

impl TooShort {
    // Its number in 01.
    #[tactic(auto, unfolding(crate::specs::Line::written_number))]
    pub fn number(self) -> u8
        ensures { result ≡ written_number (Err self) }
    {
        16
    }
}

// The number of an answer in 01; 0 where the line was written.
#[tactic(auto, unfolding(crate::specs::Line::written_number))]
pub fn written_number(written: Result<usize, TooShort>) -> u8
    ensures { result ≡ written_number written }
{
    match written {
        Ok(_) => 0,
        Err(refusal) => refusal.number(),
    }
}

// A number without its last digit. Digits are counted and written by hand, not by the library: both go by this one function, which the
// edit drops_a_zero turns.
fn without_last(number: u64) -> u64
    ensures { result ≡ number / 10 }
{
    number / 10
}

// The character of a number's last digit.
#[tactic(auto, unfolding(crate::specs::Line::digit))]
fn last_digit(number: u64) -> u8
    ensures { result ≡ digit (number % 10) }
{
    b'0' + (number % 10) as u8
}

// How many digits a number has.
fn width(number: u64) -> usize
    ensures { result ≡ length (decimal number) }
{
    if number < 10 {
        return 1;
    }
    width(without_last(number)) + 1
}

// How many bytes a letter and the space in front of it are; none where there is no letter.
fn letter_width(letter: Option<u8>) -> usize
    ensures { result ≡ length (behind letter) }
{
    match letter {
        None => 0,
        Some(_) => 2,
    }
}

// Whether a room takes so many bytes in front and then the numbers, each behind a space. The room is counted down, so that nothing
// overflows, however many numbers there are.
fn has_room(room: usize, front: usize, numbers: &[u64]) -> bool
    ensures { result ≡ leb (front + length (spaced numbers.now)) room }
{
    if room < front {
        return false;
    }
    let mut left = room - front;
    for &number in numbers {
        let needed = width(number) + 1;
        if left < needed {
            return false;
        }
        left -= needed;
    }
    true
}

// Writes one byte, and answers with the place behind it. Here and below the place goes beside the buffer and the buffer is not cut: what is lent is
// promised as a whole.
fn put_byte(buffer: &mut [u8], at: usize, byte: u8) -> usize
    requires { at < length buffer.old }
    ensures value { result ≡ at + 1 }
    ensures buffer_after { buffer.new ≡ set buffer.old at byte }
{
    buffer[at] = byte;
    at + 1
}

// Writes a number's digits, the first digit first, and answers with the place behind them.
fn put_number(buffer: &mut [u8], at: usize, number: u64) -> usize
    requires { at + length (decimal number) ≤ length buffer.old }
    ensures value { result ≡ at + length (decimal number) }
    ensures buffer_after { buffer.new ≡ sets buffer.old at (decimal number) }
{
    if number < 10 {
        return put_byte(buffer, at, last_digit(number));
    }
    let last = put_number(buffer, at, without_last(number));
    put_byte(buffer, last, last_digit(number))
}

// Writes a letter behind a space, or nothing where there is none, and answers with the place behind it.
fn put_letter(buffer: &mut [u8], at: usize, letter: Option<u8>) -> usize
    requires { at + length (behind letter) ≤ length buffer.old }
    ensures value { result ≡ at + length (behind letter) }
    ensures buffer_after { buffer.new ≡ sets buffer.old at (behind letter) }
{
    match letter {
        None => at,
        Some(letter) => {
            let letter_at = put_byte(buffer, at, SPACE);
            put_byte(buffer, letter_at, letter)
        }
    }
}

// Writes numbers in order, each behind a space, and answers with the place behind them.
fn put_numbers(buffer: &mut [u8], at: usize, numbers: &[u64]) -> usize
    requires { at + length (spaced numbers.now) ≤ length buffer.old }
    ensures value { result ≡ at + length (spaced numbers.now) }
    ensures buffer_after { buffer.new ≡ sets buffer.old at (spaced numbers.now) }
{
    let mut end = at;
    for &number in numbers {
        let number_at = put_byte(buffer, end, SPACE);
        end = put_number(buffer, number_at, number);
    }
    end
}

// Writes the bytes of a line or a row in order, and answers with the place behind them; the caller has seen that there is room.
fn put_text(buffer: &mut [u8], first: u64, letter: Option<u8>, numbers: &[u64]) -> usize
    requires { length (text first letter numbers.now) ≤ length buffer.old }
    ensures value { result ≡ length (text first letter numbers.now) }
    ensures buffer_after { buffer.new ≡ text first letter numbers.now ++ drop (length (text first letter numbers.now)) buffer.old }
{
    let first_end = put_number(buffer, 0, first);
    let letter_end = put_letter(buffer, first_end, letter);
    let numbers_end = put_numbers(buffer, letter_end, numbers);
    put_byte(buffer, numbers_end, NEWLINE)
}

// Writes a line, or a row where there is no letter, at the buffer's start; or refuses a buffer that is shorter and leaves it as it was.
fn write_text(
    buffer: &mut [u8],
    first: u64,
    letter: Option<u8>,
    numbers: &[u64],
) -> Result<usize, TooShort>
    ensures result_value { written_told result ≡ writing buffer.old (text first letter numbers.now) }
    ensures buffer_after { buffer.new ≡ buffer_after buffer.old (text first letter numbers.now) }
{
    if has_room(
        buffer.len(),
        width(first) + letter_width(letter) + 1,
        numbers,
    ) {
        return Ok(put_text(buffer, first, letter, numbers));
    }
    Err(TooShort)
}

// Writes a line at the buffer's start, or refuses a buffer that is shorter than the line and leaves it as it was.
pub fn write_line(
    buffer: &mut [u8],
    steps: u64,
    letter: u8,
    numbers: &[u64],
) -> Result<usize, TooShort>
    ensures result_value { written_told result ≡ writing buffer.old (line steps letter numbers.now) }
    ensures buffer_after { buffer.new ≡ buffer_after buffer.old (line steps letter numbers.now) }
{
    write_text(buffer, steps, Some(letter), numbers)
}

// Writes a row of numbers at the buffer's start, or refuses a buffer that is shorter than the row and leaves it as it was.
pub fn write_row(buffer: &mut [u8], first: u64, numbers: &[u64]) -> Result<usize, TooShort>
    ensures result_value { written_told result ≡ writing buffer.old (row first numbers.now) }
    ensures buffer_after { buffer.new ≡ buffer_after buffer.old (row first numbers.now) }
{
    write_text(buffer, first, None, numbers)
}
