// Number 14: whether a state is one that the calls leave behind, as far as it is looked at. Empty slots, unused places of the ring and the words of
// the store are not.
#![tactic(auto, using(crate::proofs::QueueLoop::queue_begins, crate::proofs::QueueLoop::queue_more, crate::proofs::QueueLoop::queue_ends, crate::proofs::QueueLoop::queue_bad, crate::proofs::QueueLoop::queue_empty), unfolding(crate::specs::Damage::time_holds, crate::specs::Damage::state_holds, crate::specs::Damage::in_range, crate::specs::Damage::interval_holds, crate::specs::Damage::event_holds, crate::specs::Damage::events_hold, crate::specs::Damage::handshake_holds, crate::specs::Damage::packet_timers_hold, crate::specs::Damage::data_timers_hold, crate::specs::Damage::fields_hold, crate::specs::Damage::timers_hold, crate::specs::Damage::stored_holds, crate::specs::Damage::control_holds, crate::specs::Damage::undamaged, crate::specs::Cases::case_state, crate::specs::Cases::case_event, base::specs::Choice::choose, base::specs::Choice::case_option))]

ghost use Rattle.std.specs.Prelude.{◌≡◌, ◌≤◌};
ghost use Rattle.sessions.specs.Session.{time_limit};
ghost use Rattle.tunnel.specs.RingBuffer.{RingWithin, queued};
ghost use Rattle.tunnel.specs.Damage.{time_holds, state_holds, in_range, interval_holds, event_holds, queue_holds, events_hold, handshake_holds, packet_timers_hold, data_timers_hold, fields_hold, timers_hold, stored_holds, control_holds, undamaged};
ghost use Rattle.tunnel.specs.Facts.{FactsOfUndamaged};

use crate::control::Control;
use crate::event::Event;
use crate::handshake::{Handshake, HandshakeState};
use crate::ring_buffer::{RingBuffer, place_of};
use crate::timers::{MAX_JITTER, Timers};
use crate::tunnel::{TIME_LIMIT, Tunnel};
use sessions::damage::sessions_hold;

// A present time is at most this.
fn time_holds(time: Option<u64>, most: u64) -> bool
    ensures { result ≡ time_holds time most }
{
    time.is_none_or(|at| at <= most)
}

// An initiation's time is at most the greatest time.
fn state_holds(state: HandshakeState, greatest: u64) -> bool
    ensures { result ≡ state_holds state greatest }
{
    match state {
        HandshakeState::InitSent { time_sent, .. } => time_sent <= greatest,
        HandshakeState::None | HandshakeState::Expired => true,
    }
}

// The keepalive is absent or in range.
fn interval_holds(interval: Option<u64>) -> bool
    ensures { result ≡ interval_holds interval }
{
    interval.is_none_or(in_range)
}

// Whether a keepalive interval has 1 to 65,535 seconds.
fn in_range(seconds: u64) -> bool
    ensures { result ≡ in_range seconds }
{
    seconds != 0 && seconds <= 65535
}

// Both times of an established event are at most the greatest time.
fn event_holds(event: Option<Event>, greatest: u64) -> bool
    ensures { result ≡ event_holds event greatest }
{
    match event {
        Some(Event::Established(started_at, confirmed_at)) => {
            started_at <= greatest && confirmed_at <= greatest
        }
        _ => true,
    }
}

// Every queued event of a ring whose head and length are in range.
fn queue_holds(events: RingBuffer, greatest: u64) -> bool
    requires { RingWithin events }
    ensures { result ≡ queue_holds (queued events) greatest }
{
    for i in 0..events.len {
        let place = place_of(events.head, i);
        if !event_holds(events.slots[place].event, greatest) {
            return false;
        }
    }
    true
}

// The ring. One without an event is not gone through.
fn events_hold(events: RingBuffer, greatest: u64) -> bool
    ensures { result ≡ events_hold events greatest }
{
    events.head <= 15 && events.len <= 16 && (events.len == 0 || queue_holds(events, greatest))
}

// The present and the previous initiation, and the cookie.
fn handshake_holds(handshake: Handshake, greatest: u64) -> bool
    ensures { result ≡ handshake_holds handshake greatest }
{
    state_holds(handshake.state, greatest)
        && state_holds(handshake.previous, greatest)
        && time_holds(handshake.cookies.write_cookie, greatest)
}

// The timers of handshakes and packets.
fn packet_timers_hold(timers: Timers, greatest: u64) -> bool
    ensures { result ≡ packet_timers_hold timers greatest }
{
    timers.time_last_handshake_completed <= greatest
        && timers.time_last_handshake_started <= greatest
        && timers.time_last_packet_received <= greatest
        && timers.time_last_packet_sent <= greatest
}

// The timers of data packets and of the persistent keepalive.
fn data_timers_hold(timers: Timers, greatest: u64) -> bool
    ensures { result ≡ data_timers_hold timers greatest }
{
    timers.time_last_data_packet_received <= greatest
        && timers.time_last_data_packet_sent <= greatest
        && timers.time_persistent_keepalive <= greatest
}

// The times that may be missing, the scheduled handshake and the keepalive.
fn fields_hold(timers: Timers, greatest: u64) -> bool
    requires { greatest ≤ time_limit }
    ensures { result ≡ fields_hold timers greatest }
{
    time_holds(timers.last_data_received_without_reply, greatest)
        && time_holds(timers.first_data_sent_without_reply, greatest)
        && time_holds(timers.send_handshake_at, greatest + MAX_JITTER)
        && interval_holds(timers.persistent_keepalive)
}

// All timers.
fn timers_hold(timers: Timers, greatest: u64) -> bool
    requires { greatest ≤ time_limit }
    ensures { result ≡ timers_hold timers greatest }
{
    packet_timers_hold(timers, greatest)
        && data_timers_hold(timers, greatest)
        && fields_hold(timers, greatest)
}

// The control, below a greatest time that is within the limit.
fn control_holds(control: Control, greatest: u64) -> bool
    requires { greatest ≤ time_limit }
    ensures { result ≡ control_holds control greatest }
{
    timers_hold(control.timers, greatest)
        && handshake_holds(control.handshake, greatest)
        && time_holds(control.first_initiation_at, greatest)
        && stored_holds(control, greatest)
}

// The sessions and the events.
fn stored_holds(control: Control, greatest: u64) -> bool
    ensures { result ≡ stored_holds control greatest }
{
    sessions_hold(control.sessions, greatest) && events_hold(control.events, greatest)
}

impl Tunnel {
    // Whether number 14 lets the tunnel through.
    pub(crate) fn undamaged(&self) -> bool
        ensures { result ≡ undamaged self.now }
    {
        self.greatest <= TIME_LIMIT
            && self.last_update <= self.greatest
            && control_holds(self.control, self.greatest)
    }
}

// The test is true just where the facts that it looks at hold.
pub fn undamaged_law()
    ensures { FactsOfUndamaged }
{}
