// The order line's calls for C and Rust: numbers and lent bytes, the ends' states in lent bytes too.
#![tactic(auto)]

mod answer;
pub mod block_calls;
mod layout;
pub mod noise_calls;
mod receiver_bytes;
pub mod receiver_calls;
mod sender_bytes;
pub mod sender_calls;
pub mod tint_calls;
pub mod version;
