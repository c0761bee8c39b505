// The calls that take a tunnel.

// A call, named after the tunnel's method.
#[derive(Clone, Copy, PartialEq, Eq)]
pub enum Call {
    InitiateHandshake,
    RestartHandshake,
    Send,
    HandleCookieReply,
    PollEvent,
    PollTimeout,
    Receive,
    Look,
    HandleHandshakeInitiation,
    HandleHandshakeResponse,
    HandleTimeout,
    Missing,
    Settle,
}

impl Call {
    // Every call.
    pub const ALL: [Call; 13] = [
        Call::InitiateHandshake,
        Call::RestartHandshake,
        Call::Send,
        Call::HandleCookieReply,
        Call::PollEvent,
        Call::PollTimeout,
        Call::Receive,
        Call::Look,
        Call::HandleHandshakeInitiation,
        Call::HandleHandshakeResponse,
        Call::HandleTimeout,
        Call::Missing,
        Call::Settle,
    ];

    // Whether the call has a time.
    pub fn has_time(self) -> bool {
        !matches!(self, Call::PollEvent | Call::PollTimeout | Call::Missing)
    }

    // Whether the call has an argument besides the time that can be out of range.
    pub fn has_range(self) -> bool {
        !matches!(
            self,
            Call::InitiateHandshake | Call::RestartHandshake | Call::PollEvent | Call::PollTimeout
        )
    }

    // Whether the call has the store.
    pub fn has_store(self) -> bool {
        matches!(
            self,
            Call::Receive
                | Call::Look
                | Call::HandleHandshakeInitiation
                | Call::HandleHandshakeResponse
                | Call::HandleTimeout
                | Call::Missing
                | Call::Settle
        )
    }

    // Whether the call is a handshake message, which has an outcome.
    pub fn has_outcome(self) -> bool {
        matches!(
            self,
            Call::HandleCookieReply
                | Call::HandleHandshakeInitiation
                | Call::HandleHandshakeResponse
        )
    }
}
