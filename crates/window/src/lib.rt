// The anti-replay window: a sliding bitmap over 128 lent words that refuses replays and takes messages out of order.
// The caller keeps `next`, one past the highest committed counter.
#![tactic(auto)]

ghost use Rattle.std.specs.Prelude.{◌≡◌, ℕ, ◌+◌, ◌-◌, ◌*◌, ◌/◌, ◌%◌, ◌^◌, ◌<◌, ◌≤◌, List, [], Ok, Err};
ghost use Rattle.base.specs.Lists.{zeros};
ghost use Rattle.window.specs.History.{Represents, JudgedLaw, StandingLaw, WindowLaw};
ghost use Rattle.window.specs.Window.{limit, set_bit, clear_bit, check_bit, clears, advance, is_invalid, will_accept, Marks};

use error::Error;

// The exclusive limit of counters, which leaves room for the window's arithmetic.
pub const REJECT_AFTER_MESSAGES: u64 = u64::MAX - N_BITS;

// The bits of a word.
const WORD_SIZE: u64 = 64;

// The exponent of two that gives `WORD_SIZE`.
const WORD_SHIFT: u32 = u64::trailing_zeros(WORD_SIZE);

// The words of a window.
const N_WORDS: usize = 128;

// The counters that a window spans.
const N_BITS: u64 = WORD_SIZE * N_WORDS as u64;

// What committing a counter answers: its verdict, the next expected counter, and how many counters it skipped.
#[derive(Clone, Copy)]
pub struct Marked {
    pub verdict: Result<(), Error>,
    pub next: u64,
    pub skipped: u64,
}

// The place of the word that holds the bit of `counter`.
fn word_of(counter: u64) -> usize
    ensures { result ≡ counter % 8192 / 64 }
{
    (counter >> WORD_SHIFT) as usize & (N_WORDS - 1)
}

// The place of the bit of `counter` in its word.
fn bit_of(counter: u64) -> u64
    ensures { result ≡ counter % 64 }
{
    counter & (WORD_SIZE - 1)
}

// The first counter of the word that holds the bit of `counter`.
fn word_start(counter: u64) -> u64
    ensures { result ≡ counter / 64 * 64 }
{
    counter >> WORD_SHIFT << WORD_SHIFT
}

// The first counter at or after `from` that begins a word; 0 where it would be 2^64.
fn word_edge(from: u64) -> u64
    ensures { result ≡ (from + 63) / 64 * 64 % 2 ^ 64 }
{
    word_start(from.wrapping_add(WORD_SIZE - 1))
}

// Sets the bit of `counter`.
#[tactic(auto, using(crate::proofs::Words::shift), unfolding(crate::specs::Window::set_bit))]
fn set_bit(words: &mut [u64; N_WORDS], counter: u64)
    ensures { words.new ≡ set_bit words.old counter }
{
    words[word_of(counter)] |= 1 << bit_of(counter);
}

// Clears the bit of `counter`.
#[tactic(auto, using(crate::proofs::Words::shift), unfolding(crate::specs::Window::clear_bit))]
fn clear_bit(words: &mut [u64; N_WORDS], counter: u64)
    ensures { words.new ≡ clear_bit words.old counter }
{
    words[word_of(counter)] &= !(1 << bit_of(counter));
}

// Whether the bit of `counter` is set.
#[tactic(auto, unfolding(crate::specs::Window::check_bit, crate::specs::Window::bit_at, base::specs::Bits::bit))]
fn check_bit(words: &[u64; N_WORDS], counter: u64) -> bool
    ensures { result ≡ check_bit words.now counter }
{
    (words[word_of(counter)] >> bit_of(counter)) & 1 == 1
}

// Clears the bits of the counters from `from` up to `to`, one by one.
#[tactic(auto, using(crate::proofs::Words::clears_none, crate::proofs::Words::clears_bit))]
fn clear_bits(words: &mut [u64; N_WORDS], from: u64, to: u64)
    ensures { words.new ≡ clears words.old from (to - from) }
{
    for counter in from..to {
        clear_bit(words, counter);
    }
}

// Clears whole words: the bits of the counters from `from` up to `to`, which both begin a word.
#[tactic(auto, using(crate::proofs::Words::clears_none, crate::proofs::Words::clears_word))]
fn clear_words(words: &mut [u64; N_WORDS], from: u64, to: u64)
    requires { (from % 64 ≡ 0) × (to % 64 ≡ 0) }
    ensures { words.new ≡ clears words.old from (to - from) }
{
    for counter in (from..to).step_by(WORD_SIZE as usize) {
        words[word_of(counter)] = 0;
    }
}

// Clears the counters that `counter` skips, so that a reused place of the bitmap does not look like a replay.
#[tactic(auto, using(crate::proofs::Ready::advance_near, crate::proofs::Ready::advance_far, crate::proofs::Words::clears_on), unfolding(base::specs::Lists::zeros))]
fn clear_skipped(words: &mut [u64; N_WORDS], next: u64, counter: u64)
    requires { (next ≤ counter) × (counter < limit) }
    ensures { words.new ≡ advance words.old next counter }
{
    if counter - next >= N_BITS {
        words.fill(0);
        return;
    }
    let edge = word_edge(next);
    let last = word_start(counter);
    if last < edge {
        clear_bits(words, next, counter);
        return;
    }
    clear_bits(words, next, edge);
    clear_words(words, edge, last);
    clear_bits(words, last, counter);
}

// Whether `counter` is at or above the limit, or more than 8,192 behind `next`.
#[tactic(auto, unfolding(crate::specs::Window::is_invalid, base::specs::Choice::choose))]
fn is_invalid(next: u64, counter: u64) -> bool
    ensures { result ≡ is_invalid next counter }
{
    counter >= REJECT_AFTER_MESSAGES || counter + N_BITS < next
}

// Whether `counter` is unseen and within the allowed range: invalid or a duplicate if not.
#[tactic(auto, unfolding(crate::specs::Window::will_accept, base::specs::Choice::choose))]
fn judge(words: &[u64; N_WORDS], next: u64, counter: u64) -> Result<(), Error>
    ensures { result ≡ will_accept words.now next counter }
{
    if is_invalid(next, counter) {
        return Err(Error::InvalidCounter);
    }
    if counter < next && check_bit(words, counter) {
        return Err(Error::DuplicateCounter);
    }
    Ok(())
}

// Whether `counter` is unseen and within the allowed range; an argument is invalid where the words are not 128.
#[tactic(auto, unfolding(crate::specs::Window::will_accept, base::specs::Choice::choose))]
pub fn will_accept(words: &[u64], next: u64, counter: u64) -> Result<(), Error>
    ensures { result ≡ will_accept words.now next counter }
{
    match words.as_array() {
        Some(words) => judge(words, next, counter),
        None => Err(Error::InvalidArgument),
    }
}

// What a counter that is turned down is answered.
fn refused(error: Error, next: u64) -> Marked
    ensures { result ≡ record { verdict = Err error; next = next; skipped = 0 } }
{
    Marked {
        verdict: Err(error),
        next,
        skipped: 0,
    }
}

// What a counter that is committed is answered.
fn taken(next: u64, skipped: u64) -> Marked
    ensures { result ≡ record { verdict = Ok tt; next = next; skipped = skipped } }
{
    Marked {
        verdict: Ok(()),
        next,
        skipped,
    }
}

// Checks `counter` once more and marks it as received.
#[tactic(auto, using(crate::proofs::Ready::valid_only))]
fn commit(words: &mut [u64; N_WORDS], next: u64, counter: u64) -> Marked
    ensures { Marks words.old words.new next counter result }
{
    if is_invalid(next, counter) {
        return refused(Error::InvalidCounter, next);
    }
    if counter == next {
        set_bit(words, counter);
        return taken(next + 1, 0);
    }
    if counter < next {
        if check_bit(words, counter) {
            return refused(Error::DuplicateCounter, next);
        }
        set_bit(words, counter);
        return taken(next, 0);
    }
    clear_skipped(words, next, counter);
    set_bit(words, counter);
    taken(counter + 1, counter - next)
}

// Checks `counter` against the window once more and marks it as received; an argument is invalid where the words are not 128.
pub fn mark_did_receive(words: &mut [u64], next: u64, counter: u64) -> Marked
    ensures { Marks words.old words.new next counter result }
{
    match words.as_mut_array() {
        Some(words) => commit(words, next, counter),
        None => refused(Error::InvalidArgument, next),
    }
}

// What holds of every window grown from zero words and next 0 by any list of counters.
pub fn window_law()
    ensures { (counters : List ℕ) → WindowLaw counters }
{}

// Zero words and next 0 stand for the empty history.
pub fn fresh_law()
    ensures { Represents [] (zeros 128) 0 }
{}

// What words and a next expected counter that stand for a history do.
pub fn standing_law()
    ensures { (history words : List ℕ) (next : ℕ) → Represents history words next → StandingLaw history words next }
{}

// Which counters a history calls for a good verdict on.
pub fn judged_law()
    ensures { (history : List ℕ) (counter : ℕ) → JudgedLaw history counter }
{}
