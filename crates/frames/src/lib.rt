//! Lines of hexadecimal digits, and the bytes that they say.
#![tactic(auto)]

mod bytes;
mod code;
mod decoding;
mod frame;
mod hex;
mod line;
mod partial;
mod reply;
mod responding;
mod session;
mod text;
mod writing;

pub use bytes::u64_bytes;
pub use decoding::decode;
pub use frame::{Frame, MAX_FRAME};
pub use hex::digit;
pub use line::unhex;
pub use partial::{MAX_KEPT, Partial};
pub use reply::answer;
pub use responding::respond;
pub use session::{Session, feed, finish};
