// Missing reports on stores that no call would leave. The window is the last 8,192 counters below a session's next one, or all of them
// where there are fewer; only their bits are counted, whatever the other bits and the other slots' words hold.
use crate::fields::in_slot;
use sessions::session::REJECT_AFTER_MESSAGES;
use std::io::Write;
use std::{array, io};
use tally::Tally;
use tunnel::answer::Answer;

// The next counters of a session.
const NEXTS: [u64; 13] = [
    0,
    1,
    5,
    63,
    64,
    65,
    127,
    128,
    129,
    8191,
    8192,
    8193,
    REJECT_AFTER_MESSAGES,
];

// The filled slots, each with its local index.
const SLOTS: [(u8, u32); 3] = [(1, 257), (2, 258), (5, 253)];

// Which bits of the store are ones.
#[derive(Clone, Copy)]
enum Ones {
    // Every bit of the slot.
    Everywhere,
    // None.
    Nowhere,
    // The slot's bits outside the window.
    Outside,
    // The bits of the window's first and last counter.
    Ends,
    // The bits of the other seven slots.
    Others,
}

// The bits of a slot's word that are outside the window; one of 8,192 counters has none.
fn outside(word: u64, next: u64) -> u64 {
    if next >= 8192 || word < next / 64 {
        return 0;
    }
    if word > next / 64 {
        return u64::MAX;
    }
    u64::MAX << next % 64
}

// The bit of a counter in a slot's word, 0 where it is in another one.
fn bit_in(word: u64, counter: u64) -> u64 {
    if word == counter % 8192 / 64 {
        return 1 << counter % 64;
    }
    0
}

// The bits of a slot's word that are the window's first or last counter's.
fn ends(word: u64, next: u64) -> u64 {
    if next == 0 {
        return 0;
    }
    bit_in(word, next.saturating_sub(8192)) | bit_in(word, next - 1)
}

impl Ones {
    // A word of the slot of a session with this next counter.
    fn own_word(self, word: u64, next: u64) -> u64 {
        match self {
            Ones::Everywhere => u64::MAX,
            Ones::Outside => outside(word, next),
            Ones::Ends => ends(word, next),
            Ones::Nowhere | Ones::Others => 0,
        }
    }

    // A word of the store.
    fn word(self, place: u64, slot: u8, next: u64) -> u64 {
        if place / 128 == u64::from(slot) {
            return self.own_word(place % 128, next);
        }
        match self {
            Ones::Others => u64::MAX,
            _ => 0,
        }
    }

    // How many counters of the window are missing.
    fn missing(self, next: u64) -> u64 {
        let length = next.min(8192);
        match self {
            Ones::Everywhere => 0,
            Ones::Ends => length.saturating_sub(2),
            _ => length,
        }
    }

    // Whether the report of a slot's session with this next counter counts the missing ones and leaves the tunnel and the store as they
    // came.
    fn right(self, slot: u8, index: u32, next: u64) -> bool {
        let tunnel = in_slot(slot, |session| session.next = next);
        let words: [u64; 1024] = array::from_fn(|place| self.word(place as u64, slot, next));
        let answered = tunnel.missing(&words, index);
        answered.answer == Ok(Answer::Report(self.missing(next)))
            && answered.tunnel == tunnel
            && words == array::from_fn(|place| self.word(place as u64, slot, next))
    }

    // Every next counter of each filled slot.
    fn reports(self) -> Tally {
        SLOTS
            .iter()
            .map(|(slot, index)| {
                NEXTS
                    .iter()
                    .map(|next| Tally::from(self.right(*slot, *index, *next)))
                    .sum::<Tally>()
            })
            .sum()
    }
}

// Writes the groups of missing reports.
pub fn report_groups<W: Write>(out: &mut W) -> io::Result<()> {
    writeln!(
        out,
        "missing report: ones everywhere: {}",
        Ones::Everywhere.reports()
    )?;
    writeln!(out, "missing report: no ones: {}", Ones::Nowhere.reports())?;
    writeln!(
        out,
        "missing report: ones outside the window: {}",
        Ones::Outside.reports()
    )?;
    writeln!(
        out,
        "missing report: ones at the window's ends: {}",
        Ones::Ends.reports()
    )?;
    writeln!(
        out,
        "missing report: ones in the other slots: {}",
        Ones::Others.reports()
    )
}
