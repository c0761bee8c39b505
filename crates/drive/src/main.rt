// Reads calls from standard input, one a line, and writes one line for each to standard output.
#![tactic(auto)]

ghost use Rattle.std.specs.Io.KnownBytes.{ReadConsumes};
ghost use Rattle.std.specs.Prelude.{◌≤◌, IfOk, length};

use script::state::State;
use std::io;
use std::io::{Read, Write};
use text::gather::Gathered;
use text::text::Output;

// What stands between input and output: the line that has begun, with the buffer that it stands in, what the lines before it have brought
// about, and the answers that wait to be written out.
#[derive(Drop)]
struct Console<'a> {
    line: [u8; 65536],
    gathered: Gathered,
    state: State,
    output: Output<'a>,
}

// Reads once, and answers how many bytes came: none at the input's end. An error takes nothing off the input.
fn read_input<R: Read>(reader: &mut R, input: &mut [u8]) -> io::Result<usize>
    ensures bound { IfOk result (λ n. n ≤ length input.new) }
    ensures bytes { ReadConsumes (R.remaining reader.old) (R.remaining reader.new) result input.new }
{
    reader.read(input)
}

impl Console<'_> {
    // Writes out what waits.
    fn flush<W: Write>(&mut self, writer: &mut W) -> io::Result<()> {
        writer.write_all(self.output.text())?;
        self.output.at = 0;
        Ok(())
    }

    // Answers the line that was gathered. What waits is written out first if the answer might not fit: 196,608 bytes are free for it.
    fn end_line<W: Write>(&mut self, writer: &mut W) -> io::Result<()> {
        if self.output.at > 65536 {
            self.flush(writer)?;
        }
        self.state
            .answer(self.gathered.line(&self.line), &mut self.output);
        self.gathered.clear();
        Ok(())
    }

    // Gathers a part of the input, and answers each line that ends in it.
    fn take<W: Write>(&mut self, writer: &mut W, input: &[u8]) -> io::Result<()> {
        for part in input.split_inclusive(|byte| *byte == b'\n') {
            match part.strip_suffix(b"\n") {
                Some(end) => {
                    self.gathered.append(&mut self.line, end);
                    self.end_line(writer)?;
                }
                None => self.gathered.append(&mut self.line, part),
            }
        }
        Ok(())
    }

    // Takes all of the input. Its last line may have no newline.
    //
    // A proved loop has to end, and nothing says that the input does. So the loop counts its turns, up to a number that no run reaches.
    fn take_all<R: Read, W: Write>(
        &mut self,
        reader: &mut R,
        writer: &mut W,
        input: &mut [u8],
    ) -> io::Result<()> {
        for _ in 0..u64::MAX {
            let came = read_input(reader, input)?;
            self.take(writer, &input[..came])?;
            if came == 0 && self.gathered.begun() {
                self.end_line(writer)?;
            }
            self.flush(writer)?;
            if came == 0 {
                break;
            }
        }
        Ok(())
    }
}

fn main(rt: HostRuntime) -> io::Result<()> {
    let mut input = [0u8; 65536];
    let mut out = [0u8; 262144];
    let mut console = Console {
        line: [0; 65536],
        gathered: Gathered::new(),
        state: State::new(),
        output: Output {
            buffer: &mut out,
            at: 0,
        },
    };
    console.take_all(&mut rt.reader(), &mut io::writer(&rt), &mut input)
}
