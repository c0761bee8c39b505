// Words and decimal numbers of a line. A position stands at a word's first byte or at the line's end.
ghost use Rattle.std.specs.Prelude.{◌≡◌, ◌<◌, ◌≤◌, IfSome, length};
ghost use Rattle.text.specs.Number.{with_digit, number_of};
ghost use Rattle.text.specs.Place.{Onward};

// Whether a byte separates words.
fn is_space(byte: u8) -> bool {
    matches!(byte, b' ' | b'\t' | b'\r')
}

// The position of the first byte from here on at which to stop, or the end.
fn first_from<F: Fn(u8) -> bool + Drop>(line: &[u8], from: usize, stops: F) -> usize
    requires { F.IsAlwaysCallable stops }
    ensures { Onward from (length line.now) result }
{
    for at in from..line.len() {
        if stops(line[at]) {
            return at;
        }
    }
    line.len().max(from)
}

// The position of the first word from here on.
pub fn skip_spaces(line: &[u8], from: usize) -> usize
    ensures { Onward from (length line.now) result }
{
    first_from(line, from, |byte| !is_space(byte))
}

// The end of the word that starts here.
pub fn word_end(line: &[u8], from: usize) -> usize
    ensures { Onward from (length line.now) result }
{
    first_from(line, from, is_space)
}

// A number with one more digit.
#[tactic(auto, using(base::proofs::Choice::picks), unfolding(crate::specs::Number::with_digit))]
fn with_digit(value: u64, byte: u8) -> Option<u64>
    ensures { result ≡ with_digit value byte }
{
    let digit = char::from(byte).to_digit(10)?;
    value.checked_mul(10)?.checked_add(u64::from(digit))
}

// The decimal number that a word is: one or more digits, up to 2^64 - 1.
#[tactic(auto, using(crate::proofs::Digits::counting))]
pub fn number_of(word: &[u8]) -> Option<u64>
    ensures { result ≡ number_of word.now }
{
    if word.is_empty() {
        return None;
    }
    let mut value = 0;
    for byte in word {
        value = with_digit(value, *byte)?;
    }
    Some(value)
}

// Reads the number at a position, and answers the position after it too.
#[tactic(auto, using(crate::proofs::Digits::some_read))]
pub fn read_number(line: &[u8], at: usize) -> Option<(u64, usize)>
    ensures { IfSome result (λ read. (at < read.1) × (read.1 ≤ length line.now)) }
{
    if at >= line.len() {
        return None;
    }
    let end = word_end(line, at);
    let value = number_of(&line[at..end])?;
    Some((value, skip_spaces(line, end)))
}
