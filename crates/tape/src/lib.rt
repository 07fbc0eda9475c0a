// A tape of calls: read a call at a time from its bytes, made on a sheet, and told in lines of text. A call has 273 words at most,
// a head and 17 vectors of 16 entries, and so has an answer block; each takes two memory words at most. Its lines have fewer than 4,096 bytes.
#![tactic(auto)]

mod answering;
mod bytes;
pub mod calling;
pub mod picking;
pub mod printing;
mod reading;
pub mod running;
mod text;
