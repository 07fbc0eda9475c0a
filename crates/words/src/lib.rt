// Words of documents 01 and 02: their kinds, words out of memory and words into memory.
#![tactic(auto)]

pub mod kinds;
pub mod signs;
pub mod unpacking;
pub mod writing;
