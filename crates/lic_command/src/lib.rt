//! The whole program, over its arguments, its standard streams and the files that it opens.
#![tactic(auto)]

mod faults;
mod files;
mod program;
mod progress;
mod status;

pub use faults::{Stop, report_stop};
pub use files::{FileList, Search, Work, Written, write_files};
pub use lic_engine::{RunFault, check, run, run_tokens};
pub use lic_find::Ask;
pub use lic_stream::{Counted, Sink, Source};
pub use program::{command, command_with};
pub use progress::Progress;
