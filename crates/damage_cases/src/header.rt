// The cases of a data message's header: 16 lent bytes, and every other number of them.
use error::Error;
use message::write_header;
use std::io;
use std::io::Write;
use tally::Tally;

// Whether a header of so many bytes is turned down, with the bytes as they came.
fn turned_down(n: usize) -> bool {
    let mut bytes = [7u8; 64];
    let written = write_header(&mut bytes[..n.min(64)], u32::MAX, u64::MAX);
    written == Err(Error::InvalidArgument) && bytes == [7; 64]
}

// Whether a header of 16 bytes is written, and no byte after them.
fn written() -> bool {
    let mut bytes = [255u8; 64];
    let written = write_header(&mut bytes[..16], u32::MAX, u64::MAX);
    written.is_ok() && bytes[..4] == [4, 0, 0, 0] && bytes[4..].iter().all(|byte| *byte == 255)
}

// Writes the groups of the header.
pub fn header_groups<W: Write>(out: &mut W) -> io::Result<()> {
    let others: Tally = (0..16)
        .chain(17..65)
        .map(|n| Tally::from(turned_down(n)))
        .sum();
    writeln!(out, "header 2: {others}")?;
    writeln!(out, "header: {}", Tally::from(written()))
}
