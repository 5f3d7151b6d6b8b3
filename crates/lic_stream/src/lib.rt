//! Readers and writers that report their bytes and count their failed calls, and whole inputs and outputs over them.
#![tactic(auto)]

mod stream;
mod transfer;

pub use stream::{Counted, Sink, Source};
pub use transfer::{ReadFault, WriteFailed, pull_into, put_all, put_gathered, read_up_to};
