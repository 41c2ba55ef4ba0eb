//! The words of the program's command line.
#![tactic(auto)]

mod command;
mod file_name;
mod generate;
mod host;
mod keep;
mod level;
mod limit;
mod loops;
mod numbers;
mod one_file;
mod options;
mod project;
mod run;
mod serve;
mod service;

pub use command::{Command, Text, command_of};
pub use file_name::FileName;
pub use host::{Hosting, host_in};
pub use keep::{Keep, keep_in};
pub use level::Level;
pub use limit::limit_in;
pub use loops::{LoopService, Patience};
pub use one_file::one_file_in;
pub use project::{Project, project_in};
pub use service::Service;
pub use std::alloc::AllocError as OutOfMemory;
