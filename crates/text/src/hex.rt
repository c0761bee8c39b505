// Bytes in hexadecimal digits: two for a byte, the high digit first, and `-` for no bytes.
ghost use Rattle.std.specs.Prelude.{◌≡◌, [], ◌∷◌, ◌/◌, ◌%◌, ◌<◌, ◌≤◌, IfSome, IsSome, Some, length, is_some};
ghost use Rattle.text.specs.Hex.{Reads, HexReadsBack, digit_value, byte_of, pair_bytes, read_hex, hex_digit, hex_of};
ghost use Rattle.text.specs.Text.{Prints};

use crate::text::Output;

// The value of a byte that is a hexadecimal digit.
#[tactic(auto, using(base::proofs::Choice::picks), unfolding(crate::specs::Hex::digit_value))]
fn value_of(digit: u8) -> u8
    requires { IsSome (digit_value digit) }
    ensures value { Some result ≡ digit_value digit }
    ensures below { result < 16 }
{
    if digit <= b'9' {
        digit - b'0'
    } else if digit <= b'F' {
        digit - b'A' + 10
    } else {
        digit - b'a' + 10
    }
}

// The value of a hexadecimal digit, in either case.
#[tactic(auto, using(base::proofs::Choice::picks), unfolding(crate::specs::Hex::digit_value))]
fn digit_value(byte: u8) -> Option<u8>
    ensures value { result ≡ digit_value byte }
    ensures below { IfSome result (λ v. v < 16) }
{
    match byte {
        b'0'..=b'9' | b'A'..=b'F' | b'a'..=b'f' => Some(value_of(byte)),
        _ => None,
    }
}

// The byte of two hexadecimal digits.
#[tactic(auto, using(base::proofs::Choice::cases), unfolding(crate::specs::Hex::byte_of, base::specs::Choice::case_option))]
fn byte_of(high: u8, low: u8) -> Option<u8>
    ensures { result ≡ byte_of high low }
{
    Some(digit_value(high)? * 16 + digit_value(low)?)
}

// The byte of two bytes that are hexadecimal digits.
#[tactic(auto, using(base::proofs::Choice::cases), unfolding(crate::specs::Hex::byte_of, base::specs::Choice::case_option))]
fn pair_value(high: u8, low: u8) -> u8
    requires { IsSome (byte_of high low) }
    ensures { Some result ≡ byte_of high low }
{
    value_of(high) * 16 + value_of(low)
}

// Whether a word is pairs of hexadecimal digits.
#[tactic(auto, using(crate::proofs::HexReading::checking))]
fn are_pairs(word: &[u8]) -> bool
    ensures { result ≡ is_some (pair_bytes word.now) }
{
    for i in 0..word.len() / 2 {
        if byte_of(word[2 * i], word[2 * i + 1]).is_none() {
            return false;
        }
    }
    word.len() % 2 == 0
}

// Reads pairs of hexadecimal digits into a buffer.
#[tactic(auto, using(crate::proofs::HexReading::storing))]
fn read_pairs(word: &[u8], bytes: &mut [u8]) -> Option<usize>
    ensures read { Reads (pair_bytes word.now) bytes.old bytes.new result }
    ensures within { IfSome result (λ n. n ≤ length bytes.new) }
{
    let len = word.len() / 2;
    if len > bytes.len() || !are_pairs(word) {
        return None;
    }
    for i in 0..len {
        bytes[i] = pair_value(word[2 * i], word[2 * i + 1]);
    }
    Some(len)
}

// Reads a word of hexadecimal digits, or `-`, into a buffer; where it is neither, or has more bytes than the buffer, that is left as it
// came.
pub fn read_hex(word: &[u8], bytes: &mut [u8]) -> Option<usize>
    ensures read { Reads (read_hex word.now) bytes.old bytes.new result }
    ensures within { IfSome result (λ n. n ≤ length bytes.new) }
{
    match word {
        b"-" => Some(0),
        [_, _, ..] => read_pairs(word, bytes),
        _ => None,
    }
}

// The hexadecimal digit of a value below 16, in lower case.
#[tactic(auto, using(base::proofs::Choice::picks), unfolding(crate::specs::Hex::hex_digit))]
fn digit(value: u8) -> u8
    requires { value < 16 }
    ensures { result ≡ hex_digit value }
{
    if value < 10 {
        b'0' + value
    } else {
        b'a' + value - 10
    }
}

impl Output<'_> {
    // Puts the digits of a byte.
    #[tactic(auto, unfolding(crate::specs::Text::put_bytes))]
    fn put_byte(&mut self, byte: u8)
        ensures { Prints self.old (hex_digit (byte / 16) ∷ hex_digit (byte % 16) ∷ []) self.new }
    {
        let (high, low) = (byte / 16, byte % 16);
        self.put(digit(high));
        self.put(digit(low));
    }

    // Puts bytes in hexadecimal digits, or `-` where there are none.
    #[tactic(auto, using(crate::proofs::HexWriting::writing))]
    pub fn put_hex(&mut self, bytes: &[u8])
        ensures { Prints self.old (hex_of bytes.now) self.new }
    {
        if bytes.is_empty() {
            self.put(b'-');
            return;
        }
        for byte in bytes {
            self.put_byte(*byte);
        }
    }
}

// What holds of every word and of all bytes.
#[tactic(auto, using(crate::proofs::HexLaws::hex_reads_back))]
pub fn laws()
    ensures reads_back { HexReadsBack }
{}
