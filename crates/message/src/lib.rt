// The datagrams of a tunnel, after src/message.rs and whitepaper section 5.4: what one that came off the air says, and the header
// of a data message.
#![tactic(auto)]

ghost use Rattle.std.specs.Prelude.{◌≡◌};
ghost use Rattle.message.specs.Message.{read_datagram, EncryptedPart, header_answer, header_bytes};
ghost use Rattle.message.specs.Laws.{DatagramLaw, HeaderInstance, HeaderLaw};

use endian::little_endian::{read_u32, read_u64, write_u32, write_u64};
use error::Error;

// The type of a handshake initiation.
pub const HANDSHAKE_INIT: u32 = 1;

// The type of a handshake response.
pub const HANDSHAKE_RESP: u32 = 2;

// The type of a cookie reply.
pub const COOKIE_REPLY: u32 = 3;

// The type of a data message.
pub const DATA: u32 = 4;

// The bytes of a handshake initiation.
pub const HANDSHAKE_INIT_SZ: usize = 148;

// The bytes of a handshake response.
pub const HANDSHAKE_RESP_SZ: usize = 92;

// The bytes of a cookie reply.
pub const COOKIE_REPLY_SZ: usize = 64;

// The bytes of a data message's header: its type, receiver index and counter.
pub const DATA_HEADER_SZ: usize = 16;

// The bytes of the authentication tag appended to a data message.
pub const AEAD_TAG_SZ: usize = 16;

// The bytes of the shortest data message.
pub const DATA_OVERHEAD_SZ: usize = DATA_HEADER_SZ + AEAD_TAG_SZ;

// What a datagram says.
#[derive(Clone, Copy)]
pub enum ReceivedMessage {
    HandshakeInitiation { sender_idx: u32 },
    HandshakeResponse { sender_idx: u32, receiver_idx: u32 },
    CookieReply { receiver_idx: u32 },
    TransportData { receiver_idx: u32, counter: u64 },
}

// Reads a datagram: what it says, unless its type is unknown or its length is not its type's.
#[tactic(auto, unfolding(crate::specs::Message::read_datagram, crate::specs::Message::read_initiation, crate::specs::Message::read_response, crate::specs::Message::read_cookie_reply, crate::specs::Message::read_data, endian::specs::LittleEndian::field, base::specs::Choice::choose))]
pub fn read_datagram(bytes: &[u8]) -> Result<ReceivedMessage, Error>
    ensures { result ≡ read_datagram bytes.now }
{
    if bytes.len() < 4 {
        return Err(Error::WrongLength);
    }
    match (read_u32(&bytes[..4]), bytes.len()) {
        (HANDSHAKE_INIT, HANDSHAKE_INIT_SZ) => Ok(ReceivedMessage::HandshakeInitiation {
            sender_idx: read_u32(&bytes[4..8]),
        }),
        (HANDSHAKE_RESP, HANDSHAKE_RESP_SZ) => Ok(ReceivedMessage::HandshakeResponse {
            sender_idx: read_u32(&bytes[4..8]),
            receiver_idx: read_u32(&bytes[8..12]),
        }),
        (COOKIE_REPLY, COOKIE_REPLY_SZ) => Ok(ReceivedMessage::CookieReply {
            receiver_idx: read_u32(&bytes[4..8]),
        }),
        (DATA, DATA_OVERHEAD_SZ..) => Ok(ReceivedMessage::TransportData {
            receiver_idx: read_u32(&bytes[4..8]),
            counter: read_u64(&bytes[8..16]),
        }),
        (HANDSHAKE_INIT | HANDSHAKE_RESP | COOKIE_REPLY | DATA, _) => Err(Error::WrongLength),
        _ => Err(Error::UnknownType),
    }
}

// The encrypted part of a data message, as a part of the lent bytes; for anything else the empty part at their end.
#[tactic(auto, using(crate::proofs::Reading::parts))]
pub fn encrypted_part(bytes: &[u8]) -> &[u8]
    ensures { EncryptedPart bytes.entry result }
{
    if bytes.len() < DATA_OVERHEAD_SZ || read_u32(&bytes[..4]) != DATA {
        return &bytes[bytes.len()..];
    }
    &bytes[DATA_HEADER_SZ..]
}

// Writes the header of a data message into 16 lent bytes; another number of bytes is turned down and left as it came.
#[tactic(auto, using(crate::proofs::Writing::joined), unfolding(crate::specs::Message::header_answer, crate::specs::Message::header_bytes, base::specs::Choice::choose))]
pub fn write_header(bytes: &mut [u8], receiver_idx: u32, counter: u64) -> Result<(), Error>
    ensures answer { result ≡ header_answer bytes.old }
    ensures written { bytes.new ≡ header_bytes bytes.old receiver_idx counter }
{
    if bytes.len() != DATA_HEADER_SZ {
        return Err(Error::InvalidArgument);
    }
    write_u32(&mut bytes[0..4], DATA);
    write_u32(&mut bytes[4..8], receiver_idx);
    write_u64(&mut bytes[8..16], counter);
    Ok(())
}

// What a datagram of each type says, byte by byte, and which datagrams are turned away.
#[tactic(auto, using(crate::proofs::Laws::datagram_law))]
pub fn datagram_law()
    ensures { DatagramLaw }
{}

// A written header reads back to its fields, and every accepted data message begins with what the writer makes of its fields.
#[tactic(auto, using(crate::proofs::Laws::header_law))]
pub fn header_law()
    ensures { HeaderLaw }
{}

// A header that is written and reads back.
#[tactic(auto, using(crate::proofs::Laws::header_instance))]
pub fn header_instance()
    ensures { HeaderInstance }
{}
