// The sound tunnel with a field that number 14 does not look at set to a value that the calls would not leave there.
use crate::fields::{in_slot, sent};
use crate::sound::but;
use tunnel::tunnel::Tunnel;

// No current session, another one, the two counts, indices and a mark of the handshake, the id and the peer's index of a filled slot,
// and a tunnel that is not established.
pub fn unlooked() -> [Tunnel; 12] {
    [
        but(|tunnel| tunnel.control.sessions.current = None),
        but(|tunnel| tunnel.control.sessions.current = Some(u32::MAX)),
        but(|tunnel| tunnel.control.sessions.last_index = u32::MAX),
        but(|tunnel| tunnel.control.sessions.last_index = 0),
        but(|tunnel| tunnel.control.sessions.inserted = u64::MAX),
        but(|tunnel| tunnel.control.handshake.state = sent(u32::MAX, 7000)),
        but(|tunnel| tunnel.control.handshake.previous = sent(u32::MAX, 6000)),
        but(|tunnel| tunnel.control.handshake.cookies.index = u32::MAX),
        but(|tunnel| tunnel.control.handshake.cookies.last_mac1 = false),
        in_slot(1, |session| session.id = u64::MAX),
        in_slot(1, |session| session.sending_index = u32::MAX),
        but(|tunnel| tunnel.control.established = false),
    ]
}
