// The handshake, without key material.
#![tactic(auto, unfolding(crate::specs::Handshake::awaits, crate::specs::Handshake::new_handshake, crate::specs::Handshake::is_in_progress, crate::specs::Handshake::in_flight_initiation, crate::specs::Handshake::set_expired, crate::specs::Handshake::is_expired, crate::specs::Handshake::cookie_expiration, crate::specs::Handshake::clear_cookie, crate::specs::Handshake::expire_cookie, crate::specs::Handshake::initiate_handshake, crate::specs::Handshake::receive_handshake_initialization, crate::specs::Handshake::expects, crate::specs::Handshake::receive_handshake_response, crate::specs::Handshake::receive_cookie_reply, crate::specs::Handshake::append_mac1_and_mac2, crate::specs::Cases::case_state, base::specs::Choice::choose, base::specs::Choice::case_option, base::specs::Choice::case_result))]

ghost use Rattle.std.specs.Prelude.{◌≡◌};
ghost use Rattle.sessions.specs.Session.{time_limit};
ghost use Rattle.tunnel.specs.Handshake.{HandshakeWithin, awaits, new_handshake, is_in_progress, in_flight_initiation, set_expired, is_expired, cookie_expiration, clear_cookie, expire_cookie, initiate_handshake, receive_handshake_initialization, expects, receive_handshake_response, receive_cookie_reply, append_mac1_and_mac2};

use crate::timers::COOKIE_EXPIRATION_TIME;
use error::Error;
use sessions::session::{Role, Session, due_by};

// How far a handshake that we started has come.
#[derive(Clone, Copy, PartialEq, Eq)]
pub enum HandshakeState {
    None,
    // An initiation awaiting a response.
    InitSent { local_index: u32, time_sent: u64 },
    // The connection has expired and cannot start another handshake.
    Expired,
}

// The message whose cookie reply is awaited, and the cookie that is held.
#[derive(Clone, Copy, PartialEq, Eq)]
pub struct Cookies {
    // Whether a message was sent whose cookie reply is awaited: the Rust's `last_mac1`.
    pub last_mac1: bool,
    // The local index of that message.
    pub index: u32,
    // When the stored cookie was received.
    pub write_cookie: Option<u64>,
}

// Handshake state and cookie tracking for one peer.
#[derive(Clone, Copy, PartialEq, Eq)]
pub struct Handshake {
    // Keeps the previous initiation available for delayed responses.
    pub previous: HandshakeState,
    pub state: HandshakeState,
    pub cookies: Cookies,
}

// Whether a state is an initiation with this local index.
fn awaits(state: HandshakeState, index: u32) -> bool
    ensures { result ≡ awaits state index }
{
    match state {
        HandshakeState::InitSent { local_index, .. } => local_index == index,
        HandshakeState::None | HandshakeState::Expired => false,
    }
}

impl Handshake {
    // No handshake yet, and no cookie.
    pub(crate) fn new() -> Handshake
        ensures { result ≡ new_handshake }
    {
        Handshake {
            previous: HandshakeState::None,
            state: HandshakeState::None,
            cookies: Cookies {
                last_mac1: false,
                index: 0,
                write_cookie: None,
            },
        }
    }

    // Whether an initiation awaits a response.
    pub(crate) fn is_in_progress(self) -> bool
        ensures { result ≡ is_in_progress self }
    {
        matches!(self.state, HandshakeState::InitSent { .. })
    }

    // When the initiation that awaits a response was sent.
    pub(crate) fn in_flight_initiation(self) -> Option<u64>
        ensures { result ≡ in_flight_initiation self }
    {
        match self.state {
            HandshakeState::InitSent { time_sent, .. } => Some(time_sent),
            HandshakeState::None | HandshakeState::Expired => None,
        }
    }

    // Neither initiation is accepted any more, and none can be sent.
    pub(crate) fn set_expired(self) -> Handshake
        ensures { result ≡ set_expired self }
    {
        Handshake {
            previous: HandshakeState::Expired,
            state: HandshakeState::Expired,
            ..self
        }
    }

    // Whether the connection has expired.
    pub(crate) fn is_expired(self) -> bool
        ensures { result ≡ is_expired self }
    {
        matches!(self.state, HandshakeState::Expired)
    }

    // When the stored cookie expires.
    pub(crate) fn cookie_expiration(self) -> Option<u64>
        requires { HandshakeWithin self time_limit }
        ensures { result ≡ cookie_expiration self }
    {
        Some(self.cookies.write_cookie? + COOKIE_EXPIRATION_TIME)
    }

    // Drops the stored cookie.
    fn clear_cookie(mut self) -> Handshake
        ensures { result ≡ clear_cookie self }
    {
        self.cookies.write_cookie = None;
        self
    }

    // Drops the stored cookie if it has expired.
    pub(crate) fn expire_cookie(self, now: u64) -> Handshake
        requires { HandshakeWithin self time_limit }
        ensures { result ≡ expire_cookie self now }
    {
        if due_by(self.cookie_expiration(), now) {
            return self.clear_cookie();
        }
        self
    }

    // Starts a new handshake.
    pub(crate) fn initiate_handshake(self, local_index: u32, now: u64) -> Handshake
        ensures { result ≡ initiate_handshake self local_index now }
    {
        let handshake = Handshake {
            previous: self.state,
            state: HandshakeState::InitSent {
                local_index,
                time_sent: now,
            },
            ..self
        };
        handshake.append_mac1_and_mac2(local_index)
    }

    // Answers a handshake initiation: the handshake after it and the session with this local index, or what the outcome turns it down by.
    pub(crate) fn receive_handshake_initialization(
        self,
        local_index: u32,
        peer_index: u32,
        outcome: Result<(), Error>,
        now: u64,
    ) -> Result<(Handshake, Session), Error>
        ensures { result ≡ receive_handshake_initialization self local_index peer_index outcome now }
    {
        outcome?;
        Ok((
            self.append_mac1_and_mac2(local_index),
            Session::new(local_index, peer_index, Role::Responder, now),
        ))
    }

    // Whether a response is for one of the two latest initiations.
    fn expects(self, receiver: u32) -> bool
        ensures { result ≡ expects self receiver }
    {
        awaits(self.state, receiver) || awaits(self.previous, receiver)
    }

    // Completes the handshake with a response to either of the two latest initiations, so that neither is retried or accepted
    // again. A response that fails to open leaves both in place.
    pub(crate) fn receive_handshake_response(
        self,
        receiver: u32,
        peer_index: u32,
        outcome: Result<(), Error>,
        now: u64,
    ) -> Result<(Handshake, Session), Error>
        ensures { result ≡ receive_handshake_response self receiver peer_index outcome now }
    {
        if !self.expects(receiver) {
            return Err(Error::UnexpectedPacket);
        }
        outcome?;
        Ok((
            Handshake {
                previous: HandshakeState::None,
                state: HandshakeState::None,
                ..self
            },
            Session::new(receiver, peer_index, Role::Initiator, now),
        ))
    }

    // Stores the cookie of a reply.
    pub(crate) fn receive_cookie_reply(
        mut self,
        receiver: u32,
        outcome: Result<(), Error>,
        now: u64,
    ) -> Result<Handshake, Error>
        ensures { result ≡ receive_cookie_reply self receiver outcome now }
    {
        if !self.cookies.last_mac1 {
            return Err(Error::UnexpectedPacket);
        }
        if receiver != self.cookies.index {
            return Err(Error::WrongIndex);
        }
        outcome?;
        self.cookies.last_mac1 = false;
        self.cookies.write_cookie = Some(now);
        Ok(self)
    }

    // Notes that a message with this local index was sent, whose cookie reply is then awaited.
    fn append_mac1_and_mac2(mut self, local_index: u32) -> Handshake
        ensures { result ≡ append_mac1_and_mac2 self local_index }
    {
        self.cookies.last_mac1 = true;
        self.cookies.index = local_index;
        self
    }
}
