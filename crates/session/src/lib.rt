// The run program without its reading and writing: line one, one period over both ends, the text that is written, and
// the program a part of its input at a time.
#![tactic(auto)]

pub mod buffer;
pub mod line_one;
pub mod period;
pub mod program;
pub mod script;
pub mod shift;
pub mod text;
