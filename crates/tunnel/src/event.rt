// The events of a tunnel.

// An action for the caller, which `poll_event` hands out.
#[derive(Clone, Copy, PartialEq, Eq)]
pub enum Event {
    // Send the initiation with this local index.
    SendHandshakeInitiation(u32),
    // Send the keepalive with this peer index and counter.
    SendKeepalive(u32, u64),
    // The tunnel confirmed its first session: when the handshake started, and when the session was confirmed.
    Established(u64, u64),
    // The connection expired and all session state was dropped.
    ConnectionExpired,
}
