// Datagrams: data messages that lie one after another are read, and headers are written one after another. The length of each datagram
// comes from the input, as it comes from the air.
use crate::sum;
use error::Error;
use message::{ReceivedMessage, encrypted_part, read_datagram, write_header};

// What the receiver is raised by from one header to the next.
const RECEIVER_STEP: u32 = 0x01020304;

// What the counter is raised by from one header to the next.
const COUNTER_STEP: u64 = 0x0102030405060708;

// A number that depends on what a datagram says.
fn weight(received: Result<ReceivedMessage, Error>) -> u64 {
    match received {
        Err(error) => u64::from(error.number()),
        Ok(
            ReceivedMessage::HandshakeInitiation { sender_idx: index }
            | ReceivedMessage::HandshakeResponse {
                sender_idx: index,
                ..
            }
            | ReceivedMessage::CookieReply {
                receiver_idx: index,
            },
        ) => u64::from(index),
        Ok(
            ReceivedMessage::TransportData {
                receiver_idx,
                counter,
            },
        ) => counter.wrapping_add(u64::from(receiver_idx)),
    }
}

// Reads a datagram: its fields, and the length and first byte of its encrypted part together.
fn read(bytes: &[u8]) -> u64 {
    let fields = weight(read_datagram(bytes));
    match encrypted_part(bytes) {
        [] => fields,
        [first, rest @ ..] => fields
            .wrapping_add(rest.len() as u64 + 1)
            .wrapping_add(u64::from(*first)),
    }
}

// Makes 1,024 data messages of 64 bytes: their headers, and the first byte of each encrypted part.
fn fill(bytes: &mut [u8; 65536]) {
    let mut receiver = 0u32;
    let mut counter = 0u64;
    for i in 0..1024 {
        let start = i * 64;
        let _ = write_header(&mut bytes[start..start + 16], receiver, counter);
        bytes[start + 16] = (counter % 251) as u8;
        receiver = receiver.wrapping_add(RECEIVER_STEP);
        counter = counter.wrapping_add(COUNTER_STEP);
    }
}

// Reads of one data message after another, each of the length that its turn's byte says; any length fits behind the first half's messages.
fn reads(bytes: &[u8; 65536], lengths: &[u8]) -> u64 {
    let mut total = 0u64;
    for (i, length) in lengths.iter().enumerate() {
        let start = i % 512 * 64;
        total = total.wrapping_add(read(&bytes[start..start + usize::from(*length)]));
    }
    total
}

// Writes of one header after another.
fn writes(bytes: &mut [u8; 65536], turns: usize) -> u64 {
    let mut receiver = 0u32;
    let mut counter = 0u64;
    let mut total = 0u64;
    for i in 0..turns {
        let start = i % 4096 * 16;
        if let Err(error) = write_header(&mut bytes[start..start + 16], receiver, counter) {
            total = total.wrapping_add(u64::from(error.number()));
        }
        receiver = receiver.wrapping_add(RECEIVER_STEP);
        counter = counter.wrapping_add(COUNTER_STEP);
    }
    total.wrapping_add(sum(bytes))
}

// Reads datagrams of these lengths: the sum of what is read.
pub fn read_case(lengths: &[u8]) -> u64 {
    let mut bytes = [0u8; 65536];
    fill(&mut bytes);
    reads(&bytes, lengths)
}

// Writes headers: the sum of the bytes that are written.
pub fn write_case(turns: usize) -> u64 {
    let mut bytes = [0u8; 65536];
    writes(&mut bytes, turns)
}
