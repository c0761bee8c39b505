// A tunnel's control, and what an operation on it hands back.
#![tactic(auto, unfolding(crate::specs::Control::new_control, crate::specs::Control::refuse, crate::specs::Control::done, crate::specs::Control::expired_control, crate::specs::Control::queueing, crate::specs::Control::poll_event, crate::specs::Control::missing_report, base::specs::Choice::choose, base::specs::Choice::case_result))]

ghost use Rattle.std.specs.Prelude.{◌≡◌, Ok, true, false};
ghost use Rattle.tunnel.specs.Control.{new_control, out_of, refuse, done, expired_control, queueing, poll_event, missing_report};
ghost use Rattle.tunnel.specs.RingBuffer.{RingWithin};

use crate::answer::Answer;
use crate::event::Event;
use crate::handshake::Handshake;
use crate::ring_buffer::RingBuffer;
use crate::timers::Timers;
use error::Error;
use sessions::sessions::Sessions;

// The Rust's `Tunnel`, save `TimeLastUpdate`.
#[derive(Clone, Copy, PartialEq, Eq)]
pub struct Control {
    pub handshake: Handshake,
    pub sessions: Sessions,
    pub timers: Timers,
    pub events: RingBuffer,
    pub first_initiation_at: Option<u64>,
    pub established: bool,
}

// What an operation leaves behind and answers or is turned down by, whether it raises the greatest time, and whether it ticks `TimeLastUpdate`.
#[derive(Clone, Copy, PartialEq, Eq)]
pub struct Out {
    pub control: Control,
    pub answer: Result<Answer, Error>,
    pub raises: bool,
    pub updates: bool,
}

impl Control {
    // A tunnel's control at its creation.
    pub(crate) fn new(index: u32, persistent_keepalive: Option<u64>, now: u64) -> Control
        ensures { result ≡ new_control index persistent_keepalive now }
    {
        Control {
            handshake: Handshake::new(),
            sessions: Sessions::new(index),
            timers: Timers::new(persistent_keepalive, now),
            events: RingBuffer::new(),
            first_initiation_at: None,
            established: false,
        }
    }

    // A call that is turned down, with what it leaves behind.
    pub(crate) fn refuse(self, error: Error) -> Out
        ensures { result ≡ refuse self error }
    {
        Out {
            control: self,
            answer: Err(error),
            raises: false,
            updates: false,
        }
    }

    // A call that is answered.
    pub(crate) fn done(self, answer: Answer) -> Out
        ensures { result ≡ done self answer }
    {
        Out {
            control: self,
            answer: Ok(answer),
            raises: true,
            updates: false,
        }
    }

    // A call that is answered and does not raise the greatest time.
    pub(crate) fn done_unraised(self, answer: Answer) -> Out
        ensures { result ≡ out_of self (Ok answer) false false }
    {
        Out {
            control: self,
            answer: Ok(answer),
            raises: false,
            updates: false,
        }
    }

    // Whether the connection has expired.
    pub(crate) fn is_expired(self) -> bool
        ensures { result ≡ expired_control self }
    {
        self.handshake.is_expired()
    }

    // The control with an event queued.
    pub(crate) fn push_back(mut self, event: Event) -> Control
        requires { RingWithin self.events }
        ensures { result ≡ queueing self event }
    {
        self.events = self.events.push_back(event);
        self
    }

    // The oldest queued event.
    pub(crate) fn poll_event(mut self) -> Out
        requires { RingWithin self.events }
        ensures { result ≡ poll_event self }
    {
        let popped = self.events.pop_front();
        self.events = popped.events;
        self.done_unraised(Answer::Polled(popped.event))
    }

    // The missing report of the session with this local index.
    pub(crate) fn missing(self, store: &[u64], index: u32) -> Out
        ensures { result ≡ missing_report self store.now index }
    {
        let count = match self.sessions.missing(store, index) {
            Ok(count) => count,
            Err(error) => return self.refuse(error),
        };
        self.done_unraised(Answer::Report(count))
    }
}
