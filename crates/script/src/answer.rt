// The answers of the calls, in text.
ghost use Rattle.std.specs.Prelude.{[], ◌∷◌, ◌++◌, MatchResult};
ghost use Rattle.error.specs.Error.{error_number};
ghost use Rattle.script.specs.Answer.{numbers_text, refusal};
ghost use Rattle.text.specs.Text.{Prints};

use error::Error;
use sessions::range::Range;
use sessions::sessions::Ahead;
use text::text::Output;
use tunnel::answer::Answer;
use tunnel::event::Event;

// Puts numbers.
#[tactic(auto, using(crate::proofs::Telling::numbers))]
pub(crate) fn put_numbers(out: &mut Output, numbers: &[u64])
    ensures { Prints out.old (numbers_text numbers.now) out.new }
{
    for number in numbers {
        out.put_number(*number);
    }
}

// Puts words and the numbers that follow them.
pub(crate) fn put_words(out: &mut Output, words: &[u8], numbers: &[u64])
    ensures { Prints out.old (words.now ++ numbers_text numbers.now) out.new }
{
    out.put_text(words);
    put_numbers(out, numbers);
}

// The numbers of a range.
fn numbers_of(range: Range) -> [u64; 3] {
    [u64::from(range.peer), range.first, range.len]
}

// Puts an event, if there is one.
fn put_event(out: &mut Output, event: Option<Event>) {
    match event {
        None => out.put_text(b"ok none"),
        Some(Event::SendHandshakeInitiation(index)) => {
            put_words(out, b"ok init", &[u64::from(index)])
        }
        Some(Event::SendKeepalive(peer, counter)) => {
            put_words(out, b"ok key", &[u64::from(peer), counter])
        }
        Some(Event::Established(started_at, confirmed_at)) => {
            put_words(out, b"ok est", &[started_at, confirmed_at])
        }
        Some(Event::ConnectionExpired) => out.put_text(b"ok exp"),
    }
}

// Puts a time, if there is one.
fn put_time(out: &mut Output, time: Option<u64>) {
    match time {
        None => out.put_text(b"ok none"),
        Some(time) => put_words(out, b"ok at", &[time]),
    }
}

// Puts what a call of the tunnel answers.
pub(crate) fn put_answer(out: &mut Output, answer: Answer) {
    match answer {
        Answer::Done => out.put_text(b"ok"),
        Answer::NoAnswer => out.put_text(b"ok none"),
        Answer::Initiation(index) => put_words(out, b"ok init", &[u64::from(index)]),
        Answer::Response(index, peer) => {
            put_words(out, b"ok resp", &[u64::from(index), u64::from(peer)])
        }
        Answer::Keepalive(peer, counter) => {
            put_words(out, b"ok key", &[u64::from(peer), counter])
        }
        Answer::Granted(range) => put_words(out, b"ok range", &numbers_of(range)),
        Answer::Polled(event) => put_event(out, event),
        Answer::Deadline(time) => put_time(out, time),
        Answer::Report(missing) => put_words(out, b"ok missing", &[missing]),
        Answer::Woke(wakings) => put_words(out, b"ok woke", &[u64::from(wakings)]),
    }
}

// Puts the two parts of a range, unless it stays whole.
pub(crate) fn put_split(out: &mut Output, parts: Option<(Range, Range)>) {
    match parts {
        None => out.put_text(b"ok none"),
        Some((front, rest)) => {
            put_words(out, b"ok range", &numbers_of(front));
            put_numbers(out, &numbers_of(rest));
        }
    }
}

// Puts the local index that comes next, and the numbers that its allocation takes.
pub(crate) fn put_ahead(out: &mut Output, ahead: Ahead) {
    put_words(
        out,
        b"ok ahead",
        &[u64::from(ahead.index), u64::from(ahead.tries)],
    );
}

// Puts bytes.
pub(crate) fn put_bytes(out: &mut Output, bytes: &[u8]) {
    out.put_text(b"ok bytes ");
    out.put_hex(bytes);
}

// Puts the number of the error that turned a line down.
fn put_refusal(out: &mut Output, error: Error)
    ensures { Prints out.old (110 ∷ 111 ∷ numbers_text (error_number error ∷ [])) out.new }
{
    put_words(out, b"no", &[u64::from(error.number())]);
}

// Puts the end of a line: in front of it the number of the error, if one turned the line down.
pub(crate) fn put_end(out: &mut Output, answered: Result<(), Error>)
    ensures { MatchResult answered (λ _. Prints out.old (10 ∷ []) out.new) (λ error. Prints out.old (refusal error) out.new) }
{
    if let Err(error) = answered {
        put_refusal(out, error);
    }
    out.put(b'\n');
}
