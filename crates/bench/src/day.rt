// A day of traffic: rounds of two minutes, each with twelve bursts of data in both directions and a new session at its end.
use crate::begin::{INDEX, PEER, weight};
use crate::lists::Lists;
use tunnel::tunnel::{Answered, Tunnel};

// The time from one burst to the next.
const PAUSE: u64 = 10_000_000_000;

// The time from an initiation to its response.
const TRIP: u64 = 1_000_000;

// The jitter of each waking, in nanoseconds.
const JITTER: u64 = 200_000_000;

// The tunnel, the time, the current session's local index and id, and a number that depends on each answer.
#[derive(Clone, Copy)]
struct Day {
    tunnel: Tunnel,
    now: u64,
    index: u32,
    id: u64,
    sum: u64,
}

impl Day {
    // Takes the tunnel back from a call.
    fn take(&mut self, answered: Answered) {
        self.tunnel = answered.tunnel;
        self.sum = self.sum.wrapping_add(weight(answered.answer));
    }

    // Time passes.
    fn wait(&mut self, time: u64) {
        self.now = self.now.wrapping_add(time);
    }

    // The tunnel is woken, an event is taken and the deadline asked for.
    fn wake(&mut self, store: &mut [u64]) {
        self.take(self.tunnel.handle_timeout(store, JITTER, self.now));
        self.take(self.tunnel.poll_event());
        self.take(self.tunnel.poll_timeout());
    }

    // A burst: data is looked at, received and sent, and the tunnel is woken.
    fn burst(&mut self, lists: &mut Lists, first: u64, counters: &[u64]) {
        self.take(self.tunnel.look(lists.store, self.index, first, self.now));
        self.take(lists.receive(self.tunnel, self.index, self.id, self.now, counters));
        self.take(self.tunnel.send(64, self.now));
        self.wake(lists.store);
        self.wait(PAUSE);
    }

    // The handshake of the next session: the waking that schedules it, the one that starts it, and the response.
    fn rekey(&mut self, store: &mut [u64]) {
        self.wake(store);
        self.wait(JITTER);
        self.index = 256 + self.index.wrapping_add(1) % 256;
        self.id = self.id.wrapping_add(1);
        self.wake(store);
        self.wait(TRIP);
        self.take(
            self.tunnel
                .handle_handshake_response(store, self.index, PEER, 0, self.now),
        );
    }

    // The bursts of a session, with the messages of the first 768 counters, and the handshake of the next.
    fn round(&mut self, counters: &[u64], lists: &mut Lists) {
        for start in (0..768).step_by(64) {
            if let Some(burst) = counters.get(start..start + 64) {
                self.burst(lists, start as u64, burst);
            }
        }
        self.rekey(lists.store);
    }
}

// The tunnel after so many rounds.
pub fn rounds(tunnel: Tunnel, counters: &[u64], lists: &mut Lists, turns: u64) -> Tunnel {
    let mut day = Day {
        tunnel,
        now: 0,
        index: INDEX,
        id: 0,
        sum: 0,
    };
    for _ in 0..turns {
        day.round(counters, lists);
    }
    let mut tunnel = day.tunnel;
    tunnel.greatest = day.now.wrapping_add(day.sum % 2);
    tunnel
}
