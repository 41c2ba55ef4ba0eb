//! The program `ifdb`: a server for labelled rows.
#![tactic(auto)]

mod adapters;

use adapters::{Reading, Writing};
use ifdb_file::{FileShelf, ReadShelf};
use ifdb_io::write_all;
use ifdb_net::TcpSite;
use ifdb_ready::TcpGates;
use ifdb_service::write_numbered;
use ifdb_top::{HostStatus, MoreStatus, Status, top_host};
use std::io;
use std::process::ExitCode;

// Hands the program's words, standard input and output, and this machine's ports and files to the top call. Tells on standard error
// where a journal is damaged, and of `host` and `compact` that a file can't be had, is no database, or holds no key.
fn main(rt: HostRuntime) -> ExitCode {
    let words = match words(&rt) {
        Ok(words) => words,
        Err(error) if error.kind() == io::ErrorKind::OutOfMemory => {
            return ExitCode::from(MoreStatus::Base(Status::OutOfMemory).exit_code());
        }
        // A word that is no text asks for nothing that the program does.
        Err(_) => Vec::new(rt.alloc()),
    };
    let mut input = Reading::new(rt.stdin());
    let mut output = Writing::new(rt.stdout());
    let mut site = TcpSite::new(&rt, rt.alloc());
    let mut gates = TcpGates::new(&rt, rt.alloc());
    let mut folder = FileShelf::new(&rt);
    let mut shelf = FileShelf::new(&rt);
    let mut secrets = ReadShelf::new(&rt);
    let end = top_host(
        &rt,
        &words,
        &mut input,
        &mut output,
        &mut site,
        &mut gates,
        &mut folder,
        &mut shelf,
        &mut secrets,
    );
    let mut errors = Writing::new(rt.stderr());
    // Where this fails too the status says it alone.
    let _ = match end {
        HostStatus::More(MoreStatus::Damaged(at)) => {
            write_numbered(&mut errors, b"ifdb: the journal is damaged at byte", at)
        }
        HostStatus::DiskFault => write_all(
            &mut errors,
            b"ifdb: a file can't be opened, read or written, or another program has it\n",
        ),
        HostStatus::NotADatabase => write_all(&mut errors, b"ifdb: the file is no database\n"),
        HostStatus::NoKey => write_all(
            &mut errors,
            b"ifdb: the first line of the file of admin's key is no key\n",
        ),
        HostStatus::SpareTaken => write_all(
            &mut errors,
            b"ifdb: the name of the new file, with .new behind it, has another file\n",
        ),
        HostStatus::More(_) => Ok(()),
    };
    ExitCode::from(end.exit_code())
}

// The program's words, without its name.
fn words(rt: &HostRuntime) -> io::Result<Vec<String>> {
    let mut words = Vec::new(rt.alloc());
    for word in std::env::args(rt)?.skip(1) {
        words.push(word)?;
    }
    Ok(words)
}
