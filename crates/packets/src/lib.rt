// Packets of the Pup door, by themselves: their types, words and bytes as units, the block that an acknowledgement carries, its words, and the IDs.
// Knows nothing of processes and hosts.
#![tactic(auto)]

mod ack;
mod block;
mod data;
mod id;
pub mod theorems;
mod types;
mod units;

pub use ack::{ACK_WORDS, second_word, start_ack};
pub use block::block_to_send;
pub use data::{address_of, value_of};
pub use id::next_id;
pub use types::{ACK, FETCH, GO, GO_REPLY, STORE, fewest_words, is_known, too_few};
pub use units::{ByteAddress, ByteCount, WordAddress, WordCount};
