// A queue of the newest sixteen events.
#![tactic(auto, unfolding(crate::specs::RingBuffer::place_of, crate::specs::RingBuffer::empty_places, crate::specs::RingBuffer::new_ring, crate::specs::RingBuffer::ring_is_empty, crate::specs::RingBuffer::store_at, crate::specs::RingBuffer::push_back, crate::specs::RingBuffer::pop_front, base::specs::Choice::choose))]

ghost use Rattle.std.specs.Prelude.{◌≡◌, ◌+◌, ◌%◌, ◌≤◌, ◌<◌};
ghost use Rattle.tunnel.specs.RingBuffer.{RingWithin, new_ring, ring_is_empty, store_at, push_back, pop_front, QueueOfNewest};

use crate::event::Event;

// One place of the ring. An unused one holds no event.
#[derive(Clone, Copy, PartialEq, Eq)]
pub struct Slot {
    pub event: Option<Event>,
}

// The places, that of the oldest event, and how many events there are.
#[derive(Clone, Copy, PartialEq, Eq)]
pub struct RingBuffer {
    pub slots: [Slot; 16],
    pub head: usize,
    pub len: usize,
}

// The ring without its oldest event, and that event, if there was one.
#[derive(Clone, Copy, PartialEq, Eq)]
pub struct Popped {
    pub events: RingBuffer,
    pub event: Option<Event>,
}

// The place at an offset from the head.
pub(crate) fn place_of(head: usize, offset: usize) -> usize
    requires { (head ≤ 15) × (offset ≤ 16) }
    ensures { result ≡ (head + offset) % 16 }
{
    (head + offset) & 15
}

impl RingBuffer {
    // A ring with no event.
    pub(crate) fn new() -> RingBuffer
        ensures { result ≡ new_ring }
    {
        let empty = Slot { event: None };
        RingBuffer {
            slots: [empty; 16],
            head: 0,
            len: 0,
        }
    }

    // Whether no event is queued.
    pub(crate) fn is_empty(self) -> bool
        ensures { result ≡ ring_is_empty self }
    {
        self.len == 0
    }

    // Appends an event, overwriting the oldest one when full.
    pub(crate) fn push_back(mut self, event: Event) -> RingBuffer
        requires { RingWithin self }
        ensures { result ≡ push_back self event }
    {
        let place = place_of(self.head, self.len);
        self.slots[place].event = Some(event);
        if self.len == 16 {
            self.head = place_of(self.head, 1);
        } else {
            self.len += 1;
        }
        self
    }

    // Removes the oldest event. Its place is left without an event.
    pub(crate) fn pop_front(mut self) -> Popped
        requires { RingWithin self }
        ensures { result ≡ pop_front self }
    {
        if self.len == 0 {
            return Popped {
                events: self,
                event: None,
            };
        }
        let event = self.slots[self.head].event.take();
        self.head = place_of(self.head, 1);
        self.len -= 1;
        Popped {
            events: self,
            event,
        }
    }
}

// The ring is a queue of the newest sixteen events.
pub fn queue_law()
    ensures { QueueOfNewest }
{}
