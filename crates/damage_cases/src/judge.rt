// Whether a call does what is expected of it.
use crate::ask::ask;
use crate::call::Call;
use crate::expected::Expected;
use crate::request::Request;
use tally::Tally;
use tunnel::tunnel::Tunnel;

// The verdict that stands in the list before a call.
const UNJUDGED: u8 = 200;

// The skip that stands in the list before a call.
const UNCOUNTED: u64 = 0x123456789ABCDEF0;

// Whether a call does what is expected of it: an answer may change the tunnel and what was lent, and all else leaves them as it has to.
fn right(tunnel: Tunnel, request: Request, expected: Expected) -> bool {
    let mut words = [request.word; 1025];
    let mut verdicts = [UNJUDGED; 1025];
    let mut skips = [UNCOUNTED; 1025];
    let answered = ask(tunnel, request, &mut words, &mut verdicts, &mut skips);
    expected.fits(answered.answer)
        && (expected.changes()
            || words == [request.word; 1025]
                && verdicts == [UNJUDGED; 1025]
                && skips == [UNCOUNTED; 1025]
                && answered.tunnel == expected.left_by(tunnel, request))
}

// A request on a tunnel.
pub fn one(tunnel: Tunnel, request: Request, expected: Expected) -> Tally {
    Tally::from(right(tunnel, request, expected))
}

// A request made of every call that is asked for.
pub fn every<A: Fn(Call) -> bool, R: Fn(Call) -> Request, E: Fn(Call) -> Expected>(
    tunnel: Tunnel,
    asked: A,
    request: R,
    expected: E,
) -> Tally
    requires asked { A.IsAlwaysCallable asked }
    requires request { R.IsAlwaysCallable request }
    requires expected { E.IsAlwaysCallable expected }
{
    Call::ALL
        .into_iter()
        .filter(|call| asked(*call))
        .map(|call| one(tunnel, request(call), expected(call)))
        .sum()
}
