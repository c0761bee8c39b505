// What the lines have brought about.
ghost use Rattle.std.specs.Prelude.{◌≡◌, None};
ghost use Rattle.script.specs.Answer.{refusal};
ghost use Rattle.text.specs.Text.{Prints};

use crate::answer::{put_ahead, put_answer, put_end, put_split, put_words};
use crate::batch::{Batch, MESSAGES};
use crate::datagram::{datagram, header};
use crate::log::Log;
use crate::skips::Skips;
use crate::words::{BYTES, Words};
use error::Error;
use sessions::range::Range;
use text::text::Output;
use tunnel::answer::Answer;
use tunnel::tunnel::{Answered, Tunnel};

// The tunnel, once a line has made one, with the store of its windows; the skips of its last good batch; the log; and room for the
// messages or the bytes of a line.
#[derive(Drop)]
pub struct State {
    tunnel: Option<Tunnel>,
    store: [u64; 1024],
    skips: Skips,
    log: Log,
    batch: Batch,
    bytes: [u8; BYTES],
}

// Tells when the session with an index was last heard.
fn heard(tunnel: Tunnel, words: Words, out: &mut Output) -> Result<(), Error> {
    let index = words.last_index()?;
    let sessions = tunnel.control.sessions;
    let time = sessions.last_heard(index).ok_or(Error::NoCurrentSession)?;
    put_words(out, b"ok at", &[time]);
    Ok(())
}

// Tells the local index that comes next.
fn ahead(tunnel: Tunnel, words: Words, out: &mut Output) -> Result<(), Error> {
    words.end()?;
    let sessions = tunnel.control.sessions;
    put_ahead(out, sessions.ahead());
    Ok(())
}

// Splits a range.
fn split(mut words: Words, out: &mut Output) -> Result<(), Error> {
    let range = Range {
        peer: words.index()?,
        first: words.number()?,
        len: words.number()?,
    };
    let at = words.last_number()?;
    put_split(out, range.split_off(at)?);
    Ok(())
}

impl State {
    // No line has come.
    pub fn new() -> State
        ensures { result.tunnel ≡ None }
    {
        State {
            tunnel: None,
            store: [0; 1024],
            skips: Skips::new(),
            log: Log::new(),
            batch: Batch::new(),
            bytes: [0; BYTES],
        }
    }

    // Keeps the tunnel that a call hands back, and puts the call's answer.
    fn end_call(&mut self, answered: Answered, out: &mut Output) -> Result<(), Error> {
        self.tunnel = Some(answered.tunnel);
        put_answer(out, answered.answer?);
        Ok(())
    }

    // Makes a tunnel.
    fn start(&mut self, mut words: Words, out: &mut Output) -> Result<(), Error> {
        let index = words.index()?;
        let keepalive = words.number()?;
        let time = words.last_number()?;
        let answered = Tunnel::new(&mut self.store, index, keepalive, time);
        self.skips.messages = None;
        self.end_call(answered, out)
    }

    // Receives a batch.
    fn receive(&mut self, tunnel: Tunnel, mut words: Words, out: &mut Output) -> Result<(), Error> {
        let index = words.index()?;
        let session = words.number()?;
        let time = words.number()?;
        self.batch.read(words)?;
        let n = self.batch.len;
        let mut verdicts = [0u8; MESSAGES];
        let skips = &mut self.skips.list[..];
        let answered = tunnel.receive(
            &mut self.store,
            index,
            session,
            time,
            &self.batch.counters[..n],
            &self.batch.kinds[..n],
            &mut verdicts[..n],
            &mut skips[..n],
        );
        self.end_call(answered, out)?;
        if let Ok(Answer::Done) = answered.answer {
            self.skips.messages = Some(n);
            for verdict in &verdicts[..n] {
                out.put_number(u64::from(*verdict));
            }
        }
        Ok(())
    }

    // Makes another call of the tunnel.
    fn call_tunnel(
        &mut self,
        tunnel: Tunnel,
        name: &[u8],
        mut words: Words,
    ) -> Result<Answered, Error> {
        let store = &mut self.store;
        let answered = match name {
            b"init" => tunnel.initiate_handshake(words.last_number()?),
            b"restart" => tunnel.restart_handshake(words.last_number()?),
            b"resp" => tunnel.handle_handshake_response(
                store,
                words.index()?,
                words.index()?,
                words.number()?,
                words.last_number()?,
            ),
            b"hello" => tunnel.handle_handshake_initiation(
                store,
                words.index()?,
                words.number()?,
                words.last_number()?,
            ),
            b"cookie" => {
                tunnel.handle_cookie_reply(words.index()?, words.number()?, words.last_number()?)
            }
            b"send" => tunnel.send(words.number()?, words.last_number()?),
            b"look" => tunnel.look(store, words.index()?, words.number()?, words.last_number()?),
            b"wake" => tunnel.handle_timeout(store, words.number()?, words.last_number()?),
            b"settle" => tunnel.settle(store, words.number()?, words.last_number()?),
            b"event" => {
                words.end()?;
                tunnel.poll_event()
            }
            b"next" => {
                words.end()?;
                tunnel.poll_timeout()
            }
            b"missing" => tunnel.missing(store, words.last_index()?),
            _ => return Err(Error::InvalidArgument),
        };
        Ok(answered)
    }

    // Makes a line's call, and puts its answer. Before a line has made a tunnel, no other can be read.
    fn call(&mut self, line: &[u8], out: &mut Output) -> Result<(), Error> {
        let mut words = Words::new(line);
        let name = words.word()?;
        if let b"new" = name {
            return self.start(words, out);
        }
        let tunnel = self.tunnel.ok_or(Error::InvalidArgument)?;
        match name {
            b"recv" => self.receive(tunnel, words, out),
            b"skips" => self.skips.tell(words, out),
            b"heard" => heard(tunnel, words, out),
            b"ahead" => ahead(tunnel, words, out),
            b"split" => split(words, out),
            b"datagram" => datagram(words, &mut self.bytes, out),
            b"header" => header(words, out),
            b"store" => self.log.set_store(words, out),
            b"used" => self.log.set_used(words, out),
            b"poke" => self.log.poke(words, &mut self.bytes, out),
            b"peek" => self.log.peek(words, out),
            b"append" => self.log.append(words, out),
            b"walk" => self.log.walk(words, out),
            _ => {
                let answered = self.call_tunnel(tunnel, name, words)?;
                self.end_call(answered, out)
            }
        }
    }

    // Answers a line: one that is not all there is turned down as one that cannot be read is.
    pub fn answer(&mut self, line: Option<&[u8]>, out: &mut Output)
        ensures same { line.entry ≡ None → self.new ≡ self.old }
        ensures refusal { line.entry ≡ None → Prints out.old (refusal Error.InvalidArgument) out.new }
    {
        let answered = match line {
            Some(line) => self.call(line, out),
            None => Err(Error::InvalidArgument),
        };
        put_end(out, answered);
    }
}
