// The first pass of reading a chunk: it decides the answer and, beside a map, what the chunk makes of the count of unsettled blocks. It writes
// nothing. The modules' own functions ask for what the one before them has made sure of; `check_chunk` asks for nothing. The paint pass reads an
// opcode's lead as this one does.
#![tactic(auto)]

mod check;
mod count;
mod heads;
mod here;
mod tables;

// For what is lent no map: the answer to a chunk, by the number of blocks and the bytes alone.
pub use check::check as check_chunk;
pub use count::{Changed, check as check_and_count};
pub use heads::{Lead, lead_at};
