// The Black-Gray-Flip decoder: how a private key is read, the counters, the rounds, all five or until the residual is gone.
mod early;
mod halves;
mod planes;
mod private_key;
mod rounds;
mod rows;

pub use crate::decoder::early::find_early;
pub use crate::decoder::private_key::{is_good, read_key};
pub use crate::decoder::rounds::find;
pub use crate::halves::Key;
