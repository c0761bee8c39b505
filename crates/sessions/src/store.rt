// The store of the windows' words, which the caller lends: 1,024 words, of which slot k has the 128 from 128 * k on.
ghost use Rattle.std.specs.Prelude.{◌≡◌, ◌+◌, ◌*◌, ◌/◌, ◌%◌, ◌<◌, ◌≤◌, length, sum_by, count_ones};
ghost use Rattle.base.specs.Lists.{zeros};
ghost use Rattle.sessions.specs.Store.{put_slot, missing_of};

use crate::sessions::N_SESSIONS;
use std::ops::Range;

// The words of a window.
const N_WORDS: usize = 128;

// The words of a store.
pub(crate) const STORE_WORDS: usize = N_SESSIONS * N_WORDS;

// The counters that a window spans.
const N_BITS: u64 = 64 * N_WORDS as u64;

// Zeroes every word.
#[tactic(auto, unfolding(base::specs::Lists::zeros))]
pub fn zero(words: &mut [u64])
    ensures { words.new ≡ zeros (length words.old) }
{
    words.fill(0);
}

// Where the words of a slot stand in the store.
pub(crate) fn words_of(slot: usize) -> Range<usize>
    requires { slot < 8 }
    ensures start { result.start ≡ 128 * slot }
    ensures end { result.end ≡ 128 * slot + 128 }
{
    let start = N_WORDS * slot;
    start..start + N_WORDS
}

// Zeroes the words of a slot.
#[tactic(auto, using(crate::proofs::Words::slot_zeroed))]
pub(crate) fn zero_slot(store: &mut [u64; STORE_WORDS], slot: usize)
    requires { slot < 8 }
    ensures { store.new ≡ put_slot store.old slot (zeros 128) }
{
    store[words_of(slot)].fill(0);
}

// The number of ones in at most 128 words.
fn count_ones(words: &[u64]) -> u64
    requires { length words.now ≤ 128 }
    ensures { result ≡ sum_by (λ word. count_ones word) words.now }
{
    words.iter().map(|word| u64::from(word.count_ones())).sum()
}

// The number of words that so many bits fill.
fn full_words(bits: u64) -> usize
    ensures { result ≡ bits / 64 }
{
    (bits >> 6) as usize
}

// The number of bits that are left beyond the words that so many fill.
fn bits_beyond(bits: u64) -> u64
    ensures { result ≡ bits % 64 }
{
    bits & 63
}

// The number of a window's counters that are not committed: of the last 8,192 below `next`, or of all where there are fewer. Of those, the
// committed are the ones of the whole words before `next`'s own, and those before it in its own.
#[tactic(auto, using(crate::proofs::Missing::window_full))]
pub(crate) fn missing_of(words: &[u64], next: u64) -> u64
    requires { length words.now ≡ 128 }
    ensures { result ≡ missing_of words.now next }
{
    if next >= N_BITS {
        return N_BITS - count_ones(words);
    }
    let word = full_words(next);
    let below = (1 << bits_beyond(next)) - 1;
    next - count_ones(&words[..word]) - u64::from((words[word] & below).count_ones())
}
