// Replays on the window the lines that the Rust's window was given, `reset`, `look COUNTER` and `commit COUNTER`, and writes what it
// answers: `ok`; the verdict; the verdict, the next expected counter, the number of set bits and the skipped counters.
#![tactic(auto)]

ghost use Rattle.std.specs.Io.KnownBytes.{Consumes, IsAtEnd};
ghost use Rattle.std.specs.Prelude.{ℕ, ◌<◌, ◌≤◌, IfOk, OnErr, length, take};

use error::verdict_number;
use std::io;
use std::io::{Read, Write};

// What a line asks for.
#[derive(Clone, Copy)]
enum Command {
    Reset,
    Look(u64),
    Commit(u64),
}

// A number with one digit more; one too large for 64 bits becomes the greatest.
fn with_digit(number: u64, digit: u32) -> u64 {
    number.saturating_mul(10).saturating_add(u64::from(digit))
}

impl Command {
    // What a line says: its first byte that is neither a digit nor zero, and its digits as one number.
    fn read(line: &[u8]) -> Command {
        let number = line
            .iter()
            .filter_map(|byte| char::from(*byte).to_digit(10))
            .fold(0, with_digit);
        let letter = line.iter().find(|byte| !matches!(**byte, 0 | b'0'..=b'9'));
        match letter {
            Some(b'c') => Command::Commit(number),
            Some(b'l') => Command::Look(number),
            _ => Command::Reset,
        }
    }
}

// The window: its words, and the next expected counter.
#[derive(Drop)]
struct Window {
    words: [u64; 128],
    next: u64,
}

impl Window {
    // The number of set bits.
    fn count_ones(&self) -> u32 {
        let mut ones = 0;
        for word in &self.words {
            ones += word.count_ones();
        }
        ones
    }

    // Carries out a command and writes its answer.
    fn answer<W: Write>(&mut self, out: &mut W, command: Command) -> io::Result<()> {
        match command {
            Command::Reset => {
                self.words.fill(0);
                self.next = 0;
                writeln!(out, "ok")
            }
            Command::Look(counter) => {
                let verdict = window::will_accept(&self.words, self.next, counter);
                let number = verdict_number(verdict);
                writeln!(out, "{number}")
            }
            Command::Commit(counter) => {
                let marked = window::mark_did_receive(&mut self.words, self.next, counter);
                self.next = marked.next;
                let number = verdict_number(marked.verdict);
                let ones = self.count_ones();
                writeln!(out, "{number} {} {ones} {}", marked.next, marked.skipped)
            }
        }
    }
}

// Carries out every line of the input that a newline ends.
fn replay<W: Write>(out: &mut W, input: &[u8]) -> io::Result<()> {
    let mut window = Window {
        words: [0; 128],
        next: 0,
    };
    for line in input.split_inclusive(|byte| *byte == b'\n') {
        if let Some(line) = line.strip_suffix(b"\n") {
            window.answer(out, Command::read(line))?;
        }
    }
    Ok(())
}

// Reads until the buffer is full or the input ends, and answers how many bytes came. An error leaves the bytes that came before it.
fn read_full<R: Read>(input: &mut R, buffer: &mut [u8]) -> io::Result<usize>
    ensures bound { IfOk result (λ n. n ≤ length buffer.new) }
    ensures bytes { IfOk result (λ n. Consumes (R.remaining input.old) (R.remaining input.new) (take n buffer.new)) }
    ensures end { IfOk result (λ n. n < length buffer.new → IsAtEnd (R.remaining input.new)) }
    ensures lost { OnErr result ((n : ℕ) × (n ≤ length buffer.new) × Consumes (R.remaining input.old) (R.remaining input.new) (take n buffer.new)) }
{
    let mut at = 0;
    while at < buffer.len() {
        let came = input.read(&mut buffer[at..])?;
        if came == 0 {
            return Ok(at);
        }
        at = at + came;
    }
    Ok(at)
}

fn main(rt: HostRuntime) -> io::Result<()> {
    let mut buffer = [0u8; 65536];
    let n = read_full(&mut rt.reader(), &mut buffer)?;
    replay(&mut io::writer(&rt), &buffer[..n])
}
