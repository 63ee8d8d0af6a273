// The three standard streams, and whether a read or a write has failed. A failure is said on standard error.
use std::alloc::{AllocError, Global};
use std::io;
use std::io::{ErrorKind, Stderr, Stdin, Stdout};

// `failed` is a flag: the error is said where it comes, and only the status at the end is left to tell.
#[derive(Drop)]
pub(crate) struct Streams {
    pub(crate) stdin: Stdin,
    pub(crate) stdout: Stdout,
    pub(crate) stderr: Stderr,
    pub(crate) alloc: Global,
    pub(crate) failed: bool,
}

// Says what failed, and why. Where there is no memory for the reason, it is left out. Of an output that its reader closed nothing is
// said.
pub(crate) fn fail(streams: &mut Streams, what: &str, e: &io::Error) {
    streams.failed = true;
    if matches!(e.kind(), ErrorKind::BrokenPipe) {
        return;
    }
    let stderr = streams.stderr;
    let _ = match reason(streams.alloc, e) {
        Ok(why) => println!(stderr; "listing: {what}: {why}"),
        Err(_) => println!(stderr; "listing: {what}"),
    };
}

// The system's text for an error. The number that std adds is left out.
fn reason(alloc: Global, e: &io::Error) -> Result<String, AllocError> {
    let text = format!(in alloc; "{e}")?;
    match text.as_str().split_once(" (os error ") {
        Some((why, _)) => String::from_str(alloc, why),
        None => Ok(text),
    }
}
