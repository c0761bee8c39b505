// Text put into a lent buffer. What does not fit is left out.
ghost use Rattle.std.specs.Prelude.{◌≡◌, [], ◌∷◌, take};
ghost use Rattle.text.specs.Number.{ReadsBack, Spelt, digits_of};
ghost use Rattle.text.specs.Text.{Prints, Stands};

// A buffer, and the position after what was put into it.
#[derive(Drop)]
pub struct Output<'a> {
    pub buffer: &'a mut [u8],
    pub at: usize,
}

// Spells a number's decimal digits at the end of twenty bytes, and answers where they start.
#[tactic(auto, using(crate::proofs::Digits::spelling))]
fn spell(digits: &mut [u8; 20], n: u64) -> usize
    ensures { Spelt n digits.new result }
{
    let mut rest = n;
    for i in (0..20).rev() {
        digits[i] = b'0' + (rest % 10) as u8;
        rest /= 10;
        if rest == 0 {
            return i;
        }
    }
    0
}

impl Output<'_> {
    // The bytes in front of the position.
    pub fn text(&self) -> &[u8]
        ensures { result.now ≡ take self.now.at self.now.buffer.now }
    {
        &self.buffer[..self.at.min(self.buffer.len())]
    }

    // Puts a byte.
    #[tactic(auto, using(crate::proofs::Putting::one))]
    pub fn put(&mut self, byte: u8)
        ensures { Prints self.old (byte ∷ []) self.new }
    {
        if self.at < self.buffer.len() {
            self.buffer[self.at] = byte;
            self.at += 1;
        }
    }

    // Puts bytes.
    #[tactic(auto, using(crate::proofs::Putting::putting))]
    pub fn put_text(&mut self, text: &[u8])
        ensures { Prints self.old text.now self.new }
    {
        for byte in text {
            self.put(*byte);
        }
    }

    // Puts a space and a number.
    pub fn put_number(&mut self, n: u64)
        ensures { Prints self.old (32 ∷ digits_of n) self.new }
    {
        let mut digits = [0u8; 20];
        let start = spell(&mut digits, n);
        self.put(b' ');
        self.put_text(&digits[start..]);
    }
}

// What holds of every number and text.
#[tactic(auto, using(crate::proofs::Digits::reads_back, crate::proofs::Putting::stands))]
pub fn laws()
    ensures reads_back { ReadsBack }
    ensures stands { Stands }
{}
