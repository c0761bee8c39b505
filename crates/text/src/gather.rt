// Lines gathered from parts of the input.
ghost use Rattle.std.specs.Prelude.{◌≡◌, ◌↔◌, ◌≢◌, IsTrue, Some, length, option_copied};
ghost use Rattle.text.specs.Gather.{line_of, with_part};

// A line so far, at the front of a lent buffer: how many bytes it has, unless the buffer is too small.
#[derive(Clone, Copy, PartialEq, Eq)]
pub struct Gathered {
    pub len: Option<usize>,
}

impl Gathered {
    // A line with no bytes.
    pub fn new() -> Gathered
        ensures { result.len ≡ Some 0 }
    {
        Gathered { len: Some(0) }
    }

    // Whether any byte has come.
    pub fn begun(self) -> bool
        ensures { IsTrue result ↔ (self.len ≢ Some 0) }
    {
        self.len != Some(0)
    }

    // The line, if the buffer holds all of it.
    #[tactic(auto, unfolding(crate::specs::Gather::line_of, base::specs::Choice::case_option, base::specs::Choice::choose))]
    pub fn line(self, buffer: &[u8]) -> Option<&[u8]>
        ensures { option_copied result ≡ line_of buffer.now self.len }
    {
        buffer.get(..self.len?)
    }

    // Puts one more part at the line's end.
    #[tactic(auto, unfolding(crate::specs::Gather::line_of, crate::specs::Gather::with_part, base::specs::Choice::case_option, base::specs::Choice::choose))]
    pub fn append(&mut self, buffer: &mut [u8], part: &[u8])
        ensures { line_of buffer.new self.new.len ≡ with_part (length buffer.old) (line_of buffer.old self.old.len) part.now }
    {
        let Some(from) = self.len else {
            return;
        };
        if from > buffer.len() || part.len() > buffer.len() - from {
            self.len = None;
            return;
        }
        let end = from + part.len();
        buffer[from..end].copy_from_slice(part);
        self.len = Some(end);
    }

    // Begins another line.
    pub fn clear(&mut self)
        ensures { self.new.len ≡ Some 0 }
    {
        self.len = Some(0);
    }
}
