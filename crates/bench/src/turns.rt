// One call over and over. A call that leaves the tunnel as it is finds its greatest time raised at each turn. Each loop makes its call itself: a
// closure that is handed the tunnel copies it, which is more than some of the calls take.
use crate::begin::{INDEX, weight};
use crate::lists::Lists;
use tunnel::answer::Answer;
use tunnel::tunnel::{Answered, Tunnel};

// A second in nanoseconds.
pub const SECOND: u64 = 1_000_000_000;

// Sends of one message.
pub fn sends(mut tunnel: Tunnel, turns: u64) -> Tunnel {
    for now in 0..turns {
        let send = tunnel.send(1, now);
        tunnel = send.tunnel;
    }
    tunnel
}

// Batches of as many messages as there are kinds, of which there is one at least.
pub fn receives(mut tunnel: Tunnel, counters: &[u64], lists: &mut Lists, turns: u64) -> Tunnel {
    let len = lists.kinds.len().max(1);
    for (now, batch) in (0..turns).zip(counters.chunks_exact(len)) {
        let answered = lists.receive(tunnel, INDEX, 0, now, batch);
        tunnel = answered.tunnel;
    }
    tunnel
}

// Early looks at counters that follow each other.
pub fn looks(mut tunnel: Tunnel, store: &[u64], turns: u64) -> Tunnel {
    let mut sum = 0u64;
    for now in 0..turns {
        tunnel.greatest = now;
        let look = tunnel.look(store, INDEX, now, now);
        tunnel = look.tunnel;
        sum = sum.wrapping_add(weight(look.answer));
    }
    tunnel.greatest = tunnel.greatest.wrapping_add(sum % 2);
    tunnel
}

// Missing reports: what the last one answers.
pub fn reports(tunnel: Tunnel, store: &[u64], turns: u64) -> Answered {
    let mut last = Answered {
        tunnel,
        answer: Ok(Answer::Done),
    };
    for _ in 0..turns {
        let mut tunnel = last.tunnel;
        tunnel.greatest = tunnel.greatest.wrapping_add(1);
        last = tunnel.missing(store, INDEX);
    }
    last
}

// Wakings at times that are a step apart.
pub fn wakes(mut tunnel: Tunnel, store: &mut [u64], step: u64, turns: u64) -> Tunnel {
    let mut now = 0u64;
    for _ in 0..turns {
        now = now.wrapping_add(step);
        let waking = tunnel.handle_timeout(store, 0, now);
        tunnel = waking.tunnel;
    }
    tunnel
}

// Settlings at times that are a step apart.
pub fn settles(mut tunnel: Tunnel, store: &mut [u64], step: u64, turns: u64) -> Tunnel {
    let mut now = 0u64;
    for _ in 0..turns {
        now = now.wrapping_add(step);
        let settling = tunnel.settle(store, 0, now);
        tunnel = settling.tunnel;
    }
    tunnel
}

// The tunnel without its queued events, of which there are sixteen at most.
pub fn drained(mut tunnel: Tunnel) -> Tunnel {
    for _ in 0..16 {
        let event = tunnel.poll_event();
        tunnel = event.tunnel;
    }
    tunnel
}

// Deadlines.
pub fn deadlines(mut tunnel: Tunnel, turns: u64) -> Tunnel {
    let mut sum = 0u64;
    for _ in 0..turns {
        tunnel.greatest = tunnel.greatest.wrapping_add(1);
        let deadline = tunnel.poll_timeout();
        tunnel = deadline.tunnel;
        sum = sum.wrapping_add(weight(deadline.answer));
    }
    tunnel.greatest = tunnel.greatest.wrapping_add(sum % 2);
    tunnel
}

// Polls of an empty queue.
pub fn events(mut tunnel: Tunnel, turns: u64) -> Tunnel {
    let mut sum = 0u64;
    for now in 0..turns {
        tunnel.greatest = now;
        let event = tunnel.poll_event();
        tunnel = event.tunnel;
        sum = sum.wrapping_add(weight(event.answer));
    }
    tunnel.greatest = tunnel.greatest.wrapping_add(sum % 2);
    tunnel
}
