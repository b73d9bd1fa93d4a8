//! `artheap`: runs a script over a modelled heap of the Android Runtime, or lists a dump, tells a path in it or converts it,
//! from standard input to standard output.
#![tactic(auto)]

use ah_outside::{BufferedSink, FlushingSource, FolderShelf, SharedWriter};
use artheap_top::{Machine, Status, artheap};
use std::process::ExitCode;
use std::{env, io};

/// How many bytes of the report are held back at most until more input is waited for.
const BUFFER_BYTES: usize = 65_536;

/// The line for standard error, where the call went wrong.
fn message(status: Status) -> Option<&'static str> {
    match status {
        Status::Ok | Status::Refused | Status::NotDump => None,
        Status::Usage => Some(
            "usage: artheap run [--regions N] [--time T] | read | path ID | convert | soak START COUNT [--regions N]",
        ),
        Status::ReadFault => Some("artheap: read fault"),
        Status::WriteFault => Some("artheap: write fault"),
        Status::OutOfMemory => Some("artheap: out of memory"),
        Status::ShelfFault => Some("artheap: shelf fault"),
        Status::TooLong => Some("artheap: input too long"),
    }
}

/// Calls the job that the words name, over the standard streams and the files of the current folder.
fn job(rt: &HostRuntime) -> io::Result<Status> {
    let words = env::args(rt)?.skip(1).collect::<Vec<String>>(rt.alloc())?;
    let output = SharedWriter::new(rt.alloc(), BUFFER_BYTES, rt.stdout())?;
    let mut source = FlushingSource::new(rt.stdin(), &output);
    let mut sink = BufferedSink::new(&output);
    let mut shelf = FolderShelf::new(rt);
    let mut machine = Machine::new(rt.alloc());
    let status = artheap(
        rt.alloc(),
        words.as_slice(),
        &mut source,
        &mut sink,
        &mut shelf,
        &mut machine,
    );
    // the source has the output written out too, and can only answer a read fault where that fails
    if output.flush().is_err() || output.has_failed() {
        return Ok(Status::WriteFault);
    }
    Ok(status)
}

fn main(rt: HostRuntime) -> ExitCode {
    let status = match job(&rt) {
        Ok(status) => status,
        Err(error) if error.kind() == io::ErrorKind::OutOfMemory => Status::OutOfMemory,
        // a word that is no text has no form
        Err(_) => Status::Usage,
    };
    if let Some(message) = message(status) {
        let _ = eprintln!(rt; "{message}");
    }
    ExitCode::from(status.code())
}
