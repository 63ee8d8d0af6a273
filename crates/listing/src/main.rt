// Lists the frames of a tRPC stream: reads standard input, prints a line for each frame once it is whole, with its number,
// type, id and total size, and last a line that says how the stream ended (document 01, "The listing").
//
// It reads in pieces, and for an input of any length it has three buffers: a piece of the input, the frame that the
// deframer fills, and the text to print. An error of a read or a write ends it with a message on standard error, and a
// status that is not 0.
#![tactic(auto)]

mod lines;
mod streams;

ghost use Rattle.std.specs.Prelude.{◌≡◌, ◌+◌, ◌<◌, ◌≤◌, true, false, length, take, drop};
ghost use Rattle.fixed_header.specs.Header.{parsed, max_frame};
ghost use Rattle.deframer.specs.Deframe.{deframed, ended};
ghost use Rattle.deframer.specs.Deframe.{is_refused};
ghost use Rattle.deframer.specs.InNumbers.{progress_in_numbers, step_in_numbers};
ghost use Rattle.text.specs.Added.{Adds};
ghost use Rattle.listing.specs.Lines.{frame_line, end_line, max_line};
ghost use Rattle.listing.specs.Steps.{Text, start, with_deframer, next_number, kept, ListsFrame, ListsEnd, ListsStep, ListsPiece};
ghost use Rattle.listing.specs.Reads.{Printed, ListsNext, ListsInput};

use deframer::{Deframer, Progress, Step};
use fixed_header::FixedHeader;
use lines::{LINE, end_line, frame_line};
use std::io;
use std::io::Read;
use std::process::ExitCode;
use streams::{Streams, fail};

// The listing keeps document 01's ceiling.
const CEILING: u32 = 65536;

// What is kept from piece to piece: the deframer's state, how many frames were listed, how many bytes of the text are not
// printed yet, and whether the program is done.
// `done` is a flag: where a write failed, the end line is still added to the text of a listing that is done.
#[derive(Clone, Copy)]
struct Listing {
    deframer: Deframer,
    frames: u64,
    pending: usize,
    done: bool,
}

fn main(rt: HostRuntime) -> ExitCode {
    let mut streams = Streams {
        stdin: rt.stdin(),
        stdout: rt.stdout(),
        stderr: rt.stderr(),
        alloc: rt.alloc(),
        failed: false,
    };
    let mut piece = [0u8; 65536];
    let mut buffer = [0u8; 65536];
    let mut text = [0u8; 65536];
    list(&mut streams, &mut piece, &mut buffer, &mut text);
    if streams.failed {
        ExitCode::FAILURE
    } else {
        ExitCode::SUCCESS
    }
}

// A proved loop has to end, and nothing says that the input does. So the loop counts its reads down, from a number that no
// run uses up.
fn list(streams: &mut Streams, piece: &mut [u8], buffer: &mut [u8], text: &mut [u8])
    requires { (max_frame ≤ length buffer.old) × Text 0 text.old }
    ensures { ListsInput buffer.old text.old buffer.new text.new }
{
    let mut listing = fresh();
    let mut reads = u64::MAX;
    while 0 < reads && !listing.done {
        listing = list_next(streams, listing, piece, buffer, text);
        reads -= 1;
    }
}

// Before the first byte.
fn fresh() -> Listing
    ensures { result ≡ start }
{
    Listing {
        deframer: Deframer { held: 0, error: 0 },
        frames: 0,
        pending: 0,
        done: false,
    }
}

// Reads a piece and lists the frames that end in it, or at the end of the input lists the end.
fn list_next(
    streams: &mut Streams,
    listing: Listing,
    piece: &mut [u8],
    buffer: &mut [u8],
    text: &mut [u8],
) -> Listing
    requires { (max_frame ≤ length buffer.old) × Text listing.pending text.old }
    ensures { (result.pending ≤ length text.old)
        × ListsNext listing buffer.old text.old piece.new result buffer.new text.new }
{
    let n = match streams.stdin.read(piece) {
        Ok(n) => n,
        Err(e) => return input_failed(streams, listing, e),
    };
    if n == 0 {
        return list_end(streams, listing, buffer, text);
    }
    let listed = list_piece(streams, listing, &piece[..n], buffer, text);
    print(streams, listed, text)
}

fn input_failed(streams: &mut Streams, listing: Listing, error: io::Error) -> Listing
    ensures { (result.pending ≡ listing.pending) × (result.done ≡ true) }
{
    fail(streams, "standard input", &error);
    stopped(listing)
}

// Lists the frames that end in the piece. A refused header in it is the end of what is listed.
fn list_piece(
    streams: &mut Streams,
    listing: Listing,
    piece: &[u8],
    buffer: &mut [u8],
    text: &mut [u8],
) -> Listing
    requires { (max_frame ≤ length buffer.old) × Text listing.pending text.old }
    ensures pending_in_bounds { result.pending ≤ length text.old }
    ensures lists_piece { ListsPiece piece.now listing buffer.old text.old result
        buffer.new text.new }
{
    let mut listed = listing;
    let mut from = 0;
    while from < piece.len() {
        let step = deframe_rest(listed.deframer, buffer, piece, from);
        from += step.taken;
        listed = list_step(streams, listed, step, buffer, text);
        if listed.done {
            break;
        }
    }
    listed
}

// Hands the rest of the piece to the deframer, which takes at least a byte of it unless it refuses a header.
fn deframe_rest(deframer: Deframer, buffer: &mut [u8], piece: &[u8], from: usize) -> Step
    requires { from < length piece.now }
    ensures value { step_in_numbers result ≡ (deframed max_frame deframer buffer.old (drop from piece.now)).step }
    ensures buffer_after { buffer.new ≡ (deframed max_frame deframer buffer.old (drop from piece.now)).buffer }
    ensures taken_in_bounds { (from + result.taken ≤ length piece.now) × (is_refused (progress_in_numbers result.progress) ≡ false → 0 < result.taken) }
{
    deframer::deframe(deframer, buffer, CEILING, &piece[from..])
}

// Lists what a call of the deframer came to.
fn list_step(
    streams: &mut Streams,
    listing: Listing,
    step: Step,
    buffer: &[u8],
    text: &mut [u8],
) -> Listing
    requires { (max_frame ≤ length buffer.now) × Text listing.pending text.old }
    ensures { (result.pending ≤ length text.old) × (result.done ≡ false → is_refused (progress_in_numbers step.progress) ≡ false)
        × ListsStep (progress_in_numbers step.progress) buffer.now (with_deframer listing step.next) text.old result text.new }
{
    let next = step.next;
    let progress = step.progress;
    let listed = Listing {
        deframer: next,
        frames: listing.frames,
        pending: listing.pending,
        done: listing.done,
    };
    match progress {
        Progress::Frame(_) => list_frame(streams, listed, buffer, text),
        Progress::NeedMore => listed,
        Progress::Refused(_) => list_end(streams, listed, buffer, text),
    }
}

// Lists the frame at the start of the buffer, whose header the deframer found good.
fn list_frame(streams: &mut Streams, listing: Listing, buffer: &[u8], text: &mut [u8]) -> Listing
    requires { (max_frame ≤ length buffer.now) × Text listing.pending text.old }
    ensures { (result.pending ≤ length text.old)
        × ListsFrame (parsed max_frame (take 16 buffer.now)) listing text.old result text.new }
{
    let Ok(header) = fixed_header::parse_header(&buffer[..fixed_header::HEADER], CEILING) else {
        return listing;
    };
    add_frame(with_room(streams, listing, text), header, text)
}

// Adds a frame's line to what is to be printed.
fn add_frame(listing: Listing, header: FixedHeader, text: &mut [u8]) -> Listing
    requires { listing.pending + max_line ≤ length text.old }
    ensures { (result.pending ≤ length text.old) × (result.frames ≡ next_number listing) × (result.deframer ≡ listing.deframer)
        × Adds (frame_line (next_number listing) header) text.old listing.pending text.new result.pending }
{
    let mut listed = listing;
    listed.frames = std::num::wrapping_add_u64(listed.frames, 1);
    let mut lines = text::Text {
        bytes: text,
        len: Some(listing.pending),
    };
    frame_line(&mut lines, listed.frames, header);
    listed.pending = lines.len.unwrap();
    listed
}

// Prints what is left to print, and the line that says how the stream ended.
fn list_end(streams: &mut Streams, listing: Listing, buffer: &[u8], text: &mut [u8]) -> Listing
    requires { (max_frame ≤ length buffer.now) × Text listing.pending text.old }
    ensures { ListsEnd buffer.now listing text.old result text.new }
{
    let listed = add_end(with_room(streams, listing, text), buffer, text);
    stopped(print(streams, listed, text))
}

// Adds the end line to what is to be printed.
fn add_end(listing: Listing, buffer: &[u8], text: &mut [u8]) -> Listing
    requires { listing.pending + max_line ≤ length text.old }
    ensures { (result.pending ≤ length text.old)
        × Adds (end_line (ended max_frame listing.deframer buffer.now)) text.old listing.pending
        text.new result.pending }
{
    let mut listed = listing;
    let end = deframer::finish(listed.deframer, buffer, CEILING);
    let mut lines = text::Text {
        bytes: text,
        len: Some(listing.pending),
    };
    end_line(&mut lines, end);
    listed.pending = lines.len.unwrap();
    listed
}

// Prints the text first where it has no room for another line.
fn with_room(streams: &mut Streams, listing: Listing, text: &[u8]) -> Listing
    requires { Text listing.pending text.now }
    ensures { (result.pending + max_line ≤ length text.now) × (result.frames ≡ listing.frames) × (result.deframer ≡ listing.deframer)
        × (result.pending ≡ kept listing text.now) }
{
    if LINE <= text.len() - listing.pending {
        return listing;
    }
    print(streams, listing, text)
}

// Prints the text, unless the listing is done.
fn print(streams: &mut Streams, listing: Listing, text: &[u8]) -> Listing
    requires { listing.pending ≤ length text.now }
    ensures { Printed listing result }
{
    let pending = listing.pending;
    let mut printed = listing;
    printed.pending = 0;
    if listing.done {
        return printed;
    }
    printed.done = !written(streams, text, pending);
    printed
}

// Writes the first bytes of the text. Where that fails, it says so on standard error.
fn written(streams: &mut Streams, text: &[u8], n: usize) -> bool
    requires { n ≤ length text.now }
{
    let start = 0;
    match streams.stdout.write_all(&text[start..n]) {
        Ok(()) => true,
        Err(e) => {
            fail(streams, "standard output", &e);
            false
        }
    }
}

fn stopped(listing: Listing) -> Listing
    ensures { (result.pending ≡ listing.pending) × (result.done ≡ true) }
{
    let mut last = listing;
    last.done = true;
    last
}
