// Local indices. The upper 24 bits identify the tunnel; the low eight rotate through its session indices.

ghost use Rattle.std.specs.Prelude.{◌≡◌, ◌%◌};
ghost use Rattle.sessions.specs.Index.{wrapping_increment};

// The slot of an index.
pub(crate) fn slot_of(index: u32) -> usize
    ensures { result ≡ index % 8 }
{
    (index & 7) as usize
}

// The low eight bits of an index.
fn low_byte(index: u32) -> u8
    ensures { result ≡ index % 256 }
{
    (index & 255) as u8
}

// The index that follows: the low eight bits count up and wrap, the upper 24 stay.
#[tactic(auto, using(crate::proofs::LowByte::low_written))]
pub(crate) fn wrapping_increment(index: u32) -> u32
    ensures { result ≡ wrapping_increment index }
{
    (index & !255) | u32::from(low_byte(index).wrapping_add(1))
}
