// The counters of the received messages.

// The counter at a place: in order, eight by eight from the last to the first, each twice, with jumps of 100 and of 10,000, and in order
// with one in sixteen again in place of the next.
fn counter_at(pattern: u8, place: u64) -> u64 {
    match pattern {
        b'o' => place ^ 7,
        b'r' => place / 2,
        b'j' => place.wrapping_mul(100),
        b'c' => place.wrapping_mul(10_000),
        b'm' => place - place % 16 / 15,
        _ => place,
    }
}

// Fills a list with the counters of a pattern.
pub fn fill(counters: &mut [u64], pattern: u8) {
    for (place, counter) in counters.iter_mut().enumerate() {
        *counter = counter_at(pattern, place as u64);
    }
}
