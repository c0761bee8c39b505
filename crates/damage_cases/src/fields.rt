// Rows of the sound tunnel with a field of it set to a value.
use crate::sound::{but, sound};
use sessions::session::Session;
use tunnel::event::Event;
use tunnel::handshake::HandshakeState;
use tunnel::tunnel::Tunnel;

// One of the seven timers or of the last update at a time.
pub fn with_timer(time: u64) -> [Tunnel; 8] {
    [
        but(|tunnel| tunnel.control.timers.time_last_handshake_completed = time),
        but(|tunnel| tunnel.control.timers.time_last_handshake_started = time),
        but(|tunnel| tunnel.control.timers.time_last_packet_received = time),
        but(|tunnel| tunnel.control.timers.time_last_packet_sent = time),
        but(|tunnel| tunnel.control.timers.time_last_data_packet_received = time),
        but(|tunnel| tunnel.control.timers.time_last_data_packet_sent = time),
        but(|tunnel| tunnel.control.timers.time_persistent_keepalive = time),
        but(|tunnel| tunnel.last_update = time),
    ]
}

// An initiation that was sent at a time.
pub fn sent(local_index: u32, time_sent: u64) -> HandshakeState {
    HandshakeState::InitSent {
        local_index,
        time_sent,
    }
}

// One of the times that may be missing, but for the scheduled handshake's.
pub fn with_present(time: u64) -> [Tunnel; 6] {
    [
        but(|tunnel| tunnel.control.first_initiation_at = Some(time)),
        but(|tunnel| tunnel.control.timers.last_data_received_without_reply = Some(time)),
        but(|tunnel| tunnel.control.timers.first_data_sent_without_reply = Some(time)),
        but(|tunnel| tunnel.control.handshake.state = sent(260, time)),
        but(|tunnel| tunnel.control.handshake.previous = sent(259, time)),
        but(|tunnel| tunnel.control.handshake.cookies.write_cookie = Some(time)),
    ]
}

// The scheduled handshake at a time.
pub fn with_scheduled(time: u64) -> Tunnel {
    but(|tunnel| tunnel.control.timers.send_handshake_at = Some(time))
}

// A keepalive of so many seconds.
pub fn with_keepalive(seconds: u64) -> Tunnel {
    but(|tunnel| tunnel.control.timers.persistent_keepalive = Some(seconds))
}

// The ring's head.
pub fn with_head(head: usize) -> Tunnel {
    but(|tunnel| tunnel.control.events.head = head)
}

// The ring's length.
pub fn with_len(len: usize) -> Tunnel {
    but(|tunnel| tunnel.control.events.len = len)
}

// An event at a place of the ring.
fn with_event(place: u8, event: Event) -> Tunnel {
    but(|tunnel| {
        if let Some(slot) = tunnel.control.events.slots.get_mut(usize::from(place)) {
            slot.event = Some(event);
        }
    })
}

// An established event at a place of the ring, whose first or second time is this.
pub fn with_established(place: u8, time: u64) -> [Tunnel; 2] {
    [
        with_event(place, Event::Established(time, 0)),
        with_event(place, Event::Established(0, time)),
    ]
}

// The session of a slot changed.
pub fn in_slot<F: FnOnce(&mut Session)>(slot: u8, change: F) -> Tunnel
    requires { F.IsAlwaysCallable change }
{
    let mut tunnel = sound();
    if let Some(session) = tunnel.control.sessions.slots.get_mut(usize::from(slot)) {
        change(session);
    }
    tunnel
}

// The time, one of the two counters or the local index of the session of a slot.
pub fn with_session(slot: u8, time: u64, counter: u64, index: u32) -> [Tunnel; 4] {
    [
        in_slot(slot, |session| session.established_at = time),
        in_slot(slot, |session| session.sending_key_counter = counter),
        in_slot(slot, |session| session.next = counter),
        in_slot(slot, |session| session.receiving_index = index),
    ]
}

// The last heard time of the session of a slot.
pub fn with_heard(slot: u8, time: u64) -> Tunnel {
    in_slot(slot, |session| session.last_heard = time)
}
