// A request carried out.
use crate::call::Call;
use crate::request::Request;
use std::array;
use tunnel::tunnel::{Answered, Tunnel};

// Carries out a batch over so much of the lists as is to be lent.
fn receive_part(
    tunnel: Tunnel,
    r: Request,
    store: &mut [u64],
    counters: &[u64],
    kinds: &[u8],
    verdicts: &mut [u8],
    skips: &mut [u64],
) -> Answered {
    let a = r.lengths.counters.min(counters.len());
    let b = r.lengths.kinds.min(kinds.len());
    let c = r.lengths.verdicts.min(verdicts.len());
    let d = r.lengths.skips.min(skips.len());
    tunnel.receive(
        store,
        r.index,
        r.id,
        r.now,
        &counters[..a],
        &kinds[..b],
        &mut verdicts[..c],
        &mut skips[..d],
    )
}

// Carries out a batch of data with a kind at one place.
fn receive(
    tunnel: Tunnel,
    r: Request,
    store: &mut [u64],
    verdicts: &mut [u8],
    skips: &mut [u64],
) -> Answered {
    let counters = [r.counter; 1025];
    let kinds: [u8; 1025] = array::from_fn(|place| if place == r.place { r.kind } else { 0 });
    receive_part(tunnel, r, store, &counters, &kinds, verdicts, skips)
}

// Carries out a call over so much of the store as is to be lent.
pub fn ask(
    tunnel: Tunnel,
    r: Request,
    words: &mut [u64],
    verdicts: &mut [u8],
    skips: &mut [u64],
) -> Answered {
    let n = r.words.min(words.len());
    let store = &mut words[..n];
    match r.call {
        Call::InitiateHandshake => tunnel.initiate_handshake(r.now),
        Call::RestartHandshake => tunnel.restart_handshake(r.now),
        Call::Send => tunnel.send(r.count, r.now),
        Call::HandleCookieReply => tunnel.handle_cookie_reply(r.index, r.outcome, r.now),
        Call::PollEvent => tunnel.poll_event(),
        Call::PollTimeout => tunnel.poll_timeout(),
        Call::Receive => receive(tunnel, r, store, verdicts, skips),
        Call::Look => tunnel.look(store, r.index, r.counter, r.now),
        Call::HandleHandshakeInitiation => {
            tunnel.handle_handshake_initiation(store, r.peer, r.outcome, r.now)
        }
        Call::HandleHandshakeResponse => {
            tunnel.handle_handshake_response(store, r.index, r.peer, r.outcome, r.now)
        }
        Call::HandleTimeout => tunnel.handle_timeout(store, r.jitter, r.now),
        Call::Missing => tunnel.missing(store, r.index),
        Call::Settle => tunnel.settle(store, r.jitter, r.now),
    }
}
