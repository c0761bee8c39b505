// The lines about datagrams.
use crate::answer::{put_bytes, put_words};
use crate::words::{BYTES, Words};
use error::Error;
use message::{
    COOKIE_REPLY, DATA, HANDSHAKE_INIT, HANDSHAKE_RESP, ReceivedMessage, encrypted_part,
    read_datagram, write_header,
};
use text::text::Output;

// Puts the type of a datagram and the numbers that it says.
fn put_type(out: &mut Output, message_type: u32, index: u32) {
    put_words(
        out,
        b"ok type",
        &[u64::from(message_type), u64::from(index)],
    );
}

// Puts what a datagram with this encrypted part says.
fn put_message(out: &mut Output, message: ReceivedMessage, part: &[u8]) {
    match message {
        ReceivedMessage::HandshakeInitiation { sender_idx } => {
            put_type(out, HANDSHAKE_INIT, sender_idx)
        }
        ReceivedMessage::HandshakeResponse {
            sender_idx,
            receiver_idx,
        } => {
            put_type(out, HANDSHAKE_RESP, sender_idx);
            out.put_number(u64::from(receiver_idx));
        }
        ReceivedMessage::CookieReply { receiver_idx } => {
            put_type(out, COOKIE_REPLY, receiver_idx)
        }
        ReceivedMessage::TransportData {
            receiver_idx,
            counter,
        } => {
            put_type(out, DATA, receiver_idx);
            out.put_number(counter);
            out.put(b' ');
            out.put_hex(part);
        }
    }
}

// Reads a datagram.
pub(crate) fn datagram(
    words: Words,
    bytes: &mut [u8; BYTES],
    out: &mut Output,
) -> Result<(), Error> {
    let len = words.last_bytes(bytes)?;
    let datagram = &bytes[..len];
    put_message(out, read_datagram(datagram)?, encrypted_part(datagram));
    Ok(())
}

// Writes the header of a data message.
pub(crate) fn header(mut words: Words, out: &mut Output) -> Result<(), Error> {
    let receiver = words.index()?;
    let counter = words.last_number()?;
    let mut header = [0u8; 16];
    write_header(&mut header, receiver, counter)?;
    put_bytes(out, &header);
    Ok(())
}
