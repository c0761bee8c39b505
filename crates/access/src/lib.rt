// Who may touch what: the rights of the desk's three kinds of user, and the calls that test them before anything else.
#![tactic(auto)]

pub mod claims;
pub mod rights;
pub mod user;
