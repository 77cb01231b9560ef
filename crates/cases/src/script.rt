// The lines of the script, their words and their numbers. One space parts two of them.

ghost use Rattle.std.specs.Prelude.{◌<◌, ◌≤◌, length};

pub const SPACE: u8 = 32;

pub const LINE_END: u8 = 10;

// The most numbers that a word has.
pub const ROOM: usize = 64;

// The first place from `start` on whose byte is at most `top`, or the end. A space ends a word, and so does the line's end.
pub fn until(text: &[u8], start: usize, top: u8) -> usize
    requires { start ≤ length text.now }
    ensures { (start ≤ result) × (result ≤ length text.now) }
{
    match text[start..].iter().position(|byte| *byte <= top) {
        Some(ahead) => start + ahead,
        None => text.len(),
    }
}

// The bytes from `start` up to before `stop`; none if there are no such.
pub fn part(text: &[u8], start: usize, stop: usize) -> &[u8] {
    text.get(start..stop).unwrap_or(&[])
}

// The byte at a place; 0 past the end.
pub fn byte(text: &[u8], at: usize) -> u8 {
    text.get(at).copied().unwrap_or(0)
}

// A number with a digit more, whose byte is 48 to 57. Past a milliard it is the largest there is.
fn more(x: usize, digit: u8) -> usize {
    if 1_000_000_000 < x {
        return usize::MAX;
    }
    x * 10 + usize::from(digit % 16)
}

fn value(digits: &[u8]) -> usize {
    digits.iter().fold(0, |x, digit| more(x, *digit))
}

// Whether a number follows the space at a place.
fn is_number(text: &[u8], at: usize) -> bool
    requires { at < length text.now }
{
    byte(text, at + 1).is_ascii_digit()
}

// The numbers that were read, and the place after the last.
#[derive(Clone, Copy)]
pub struct Numbers<'a> {
    pub given: &'a [usize],
    pub stop: usize,
}

// Reads the numbers that follow a word which ends at `start`, at most as many as there is room for.
pub fn read_numbers<'a>(text: &[u8], start: usize, room: &'a mut [usize; ROOM]) -> Numbers<'a>
    requires { start ≤ length text.now }
    ensures { (start ≤ result.stop) × (result.stop ≤ length text.now) }
{
    let mut count = 0;
    let mut at = start;
    while at < text.len() && is_number(text, at) {
        let stop = until(text, at + 1, SPACE);
        if count < ROOM {
            room[count] = value(part(text, at + 1, stop));
            count += 1;
        }
        at = stop;
    }
    Numbers {
        given: &room[..count],
        stop: at,
    }
}

// The numbers from the third on.
pub fn from_third(numbers: &[usize]) -> &[usize] {
    numbers.get(2..).unwrap_or(numbers)
}

// The numbers from the second on.
pub fn from_second(numbers: &[usize]) -> &[usize] {
    numbers.get(1..).unwrap_or(numbers)
}

// The number at a place; another where it is left out.
pub fn number(numbers: &[usize], at: usize, other: usize) -> usize {
    numbers.get(at).copied().unwrap_or(other)
}
