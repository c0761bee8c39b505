// The tunnels that the cases start from.
use crate::ask::ask;
use crate::call::Call;
use crate::request::{Request, equal, good};
use tunnel::event::Event;
use tunnel::handshake::HandshakeState;
use tunnel::ring_buffer::Slot;
use tunnel::tunnel::Tunnel;

// The greatest time of the sound tunnel.
pub const GREATEST: u64 = 8000;

// A tunnel that a creation makes.
pub fn made(index: u32, keepalive: u64, now: u64) -> Tunnel {
    let mut store = [0u64; 1024];
    let answered = Tunnel::new(&mut store, index, keepalive, now);
    answered.tunnel
}

// A call on the way to a tunnel, with a message of counter 5: peer 9, and local index 257.
fn step(call: Call, now: u64) -> Request {
    Request {
        peer: 9,
        counter: 5,
        index: 257,
        lengths: equal(1),
        ..good(call, now)
    }
}

// A tunnel after calls.
fn after(keepalive: u64, steps: &[Request]) -> Tunnel {
    let mut words = [0u64; 1025];
    let mut verdicts = [0u8; 1025];
    let mut skips = [0u64; 1025];
    let mut tunnel = made(256, keepalive, 1000);
    for step in steps {
        let answered = ask(tunnel, *step, &mut words, &mut verdicts, &mut skips);
        tunnel = answered.tunnel;
    }
    tunnel
}

// A tunnel with two sessions by handshakes, data in both directions, a cookie, and an initiation sent after another one.
fn carrying() -> Tunnel {
    after(
        25,
        &[
            step(Call::InitiateHandshake, 2000),
            step(Call::HandleHandshakeResponse, 3000),
            step(Call::Receive, 4000),
            step(Call::Send, 5000),
            step(Call::HandleHandshakeInitiation, 5500),
            step(Call::RestartHandshake, 6000),
            Request {
                index: 259,
                ..step(Call::HandleCookieReply, 6500)
            },
            step(Call::RestartHandshake, 7000),
        ],
    )
}

// The sound tunnel: the one above with every time that may be missing, with a ring that begins at place 12 and goes on to place 2, where
// the event at place 0 stays, and with the session of slot 1 in slot 5 too, with an id and a local index of its own.
pub fn sound() -> Tunnel {
    let mut tunnel = carrying();
    let mut control = tunnel.control;
    control.timers.last_data_received_without_reply = Some(4000);
    control.timers.first_data_sent_without_reply = Some(5000);
    control.timers.send_handshake_at = Some(7000);
    control.events.slots[12] = Slot {
        event: Some(Event::Established(2000, 3000)),
    };
    control.events.slots[13] = Slot {
        event: Some(Event::SendHandshakeInitiation(260)),
    };
    control.events.slots[14] = Slot {
        event: Some(Event::SendKeepalive(9, 4)),
    };
    control.events.head = 12;
    control.events.len = 7;
    let mut third = control.sessions.slots[1];
    third.id = 2;
    third.receiving_index = 253;
    control.sessions.slots[5] = third;
    tunnel.control = control;
    tunnel.greatest = GREATEST;
    tunnel
}

// The sound tunnel changed.
pub fn but<F: FnOnce(&mut Tunnel)>(change: F) -> Tunnel
    requires { F.IsAlwaysCallable change }
{
    let mut tunnel = sound();
    change(&mut tunnel);
    tunnel
}

// The sound tunnel with an expired handshake.
pub fn ended() -> Tunnel {
    but(|tunnel| {
        tunnel.control.handshake.state = HandshakeState::Expired;
        tunnel.control.handshake.previous = HandshakeState::Expired;
    })
}

// A tunnel that expired by a waking 100 s after it started a handshake.
pub fn woken() -> Tunnel {
    after(
        0,
        &[
            step(Call::InitiateHandshake, 2000),
            step(Call::HandleTimeout, 100_000_000_000),
        ],
    )
}
