// What is lent to the calls of a case.
use tunnel::tunnel::{Answered, Tunnel};

// The store, and the lists of a batch but for its counters, each as long as a batch.
#[derive(Drop)]
pub struct Lists<'a> {
    pub store: &'a mut [u64],
    pub kinds: &'a [u8],
    pub verdicts: &'a mut [u8],
    pub skips: &'a mut [u64],
}

impl Lists<'_> {
    // Receives a batch.
    pub fn receive(
        &mut self,
        tunnel: Tunnel,
        index: u32,
        id: u64,
        now: u64,
        counters: &[u64],
    ) -> Answered {
        let kinds = self.kinds;
        tunnel.receive(
            self.store,
            index,
            id,
            now,
            counters,
            kinds,
            self.verdicts,
            self.skips,
        )
    }
}
