//! The program's behaviour: from the words of its command line, a folder, a source and two sinks to a status.
//!
//! [`run_in`] is the top call, and [`run`] that of commands without files of the folder. The contract of `run` says, for each
//! status, what was read, what was written to the output and what the report holds (`specs/Ends.antt`), when a run must be done
//! (`Completes`), what packing and unpacking keep, and that a command that tells of its input writes its text and no line
//! (`specs/Headline.antt`). That of `run_in` says all this of the same words, and of the others, which take a file of the folder
//! with the files of its buffers, what was made of them, written and put (`specs/WideEnds.antt`).
//!
//! - `words`, `wide_words`, `commands`: what can be asked for. - `answer`: the input and what is made of it. - `bundling`: the
//!   same of files of the folder. - `deliver`: the output and its line. - `lines`, `say`: the report. - `running`, `running_in`:
//!   the whole. - `status`: how it ended.
#![tactic(auto)]

mod answer;
mod bundling;
mod commands;
mod deliver;
pub mod laws;
mod lines;
mod running;
mod running_in;
mod say;
mod status;
mod wide_words;
mod words;

pub use commands::{Command, Wide};
pub use lines::{WANT_OF_MEMORY, refusal_line};
pub use running::run;
pub use running_in::run_in;
pub use status::Status;
pub use wide_words::wide_command;
pub use words::command;
