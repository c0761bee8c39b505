// The tunnels that the cases begin with.
use crate::turns::{SECOND, wakes};
use error::Error;
use tunnel::answer::Answer;
use tunnel::event::Event;
use tunnel::tunnel::Tunnel;

// The local index of the first session.
pub const INDEX: u32 = 257;

// The peer's index.
pub const PEER: u32 = 9;

// A number that depends on an event.
fn event_weight(event: Event) -> u64 {
    match event {
        Event::SendHandshakeInitiation(index) => u64::from(index),
        Event::SendKeepalive(_, counter) => counter,
        Event::Established(_, confirmed_at) => confirmed_at,
        Event::ConnectionExpired => 1,
    }
}

// A number that depends on an answer, so that none is left unmade.
pub fn weight(answer: Result<Answer, Error>) -> u64 {
    match answer {
        Err(error) => u64::from(error.number()),
        Ok(Answer::Done | Answer::NoAnswer) => 0,
        Ok(Answer::Initiation(index) | Answer::Response(index, _)) => u64::from(index),
        Ok(Answer::Keepalive(_, counter)) => counter,
        Ok(Answer::Granted(range)) => range.first,
        Ok(Answer::Polled(event)) => event.map_or(0, event_weight),
        Ok(Answer::Deadline(time)) => time.unwrap_or(0),
        Ok(Answer::Report(count)) => count,
        Ok(Answer::Woke(wakings)) => u64::from(wakings),
    }
}

// A tunnel that has sent its first initiation.
pub fn started(store: &mut [u64], keepalive: u64) -> Tunnel {
    let new = Tunnel::new(store, 256, keepalive, 0);
    let start = new.tunnel.initiate_handshake(0);
    start.tunnel
}

// A tunnel with one session and no event queued.
pub fn established(store: &mut [u64], keepalive: u64) -> Tunnel {
    let begun = started(store, keepalive);
    let response = begun.handle_handshake_response(store, INDEX, PEER, 0, 0);
    let event = response.tunnel.poll_event();
    event.tunnel
}

// A tunnel whose session has received and sent data.
pub fn carrying(store: &mut [u64]) -> Tunnel {
    let tunnel = established(store, 25);
    let batch = tunnel.receive(store, INDEX, 0, 0, &[5], &[0], &mut [0], &mut [0]);
    let send = batch.tunnel.send(1, 0);
    send.tunnel
}

// A tunnel with eight sessions, woken sixteen times.
pub fn filled(store: &mut [u64]) -> Tunnel {
    let mut tunnel = established(store, 1);
    for _ in 0..7 {
        let initiation = tunnel.handle_handshake_initiation(store, PEER, 0, 0);
        tunnel = initiation.tunnel;
    }
    wakes(tunnel, store, SECOND, 16)
}
