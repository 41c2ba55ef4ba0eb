// Connections in memory, and databases in files.
mod compacts;
mod faults;
mod hosts;
mod serve;

use ifdb_io::{MemoryLink, MemorySite};
use ifdb_top::Status;
use std::alloc::{AllocGlobal, Global};
use std::marker::Sync;
use std::process::Abort;
use std::sync::Wait;
use std::test::Fail;
use std::thread::Threads;
use test_top::{Calls, Ran, all_of, both, call, failing, run, served, sink, source, words_of};
