// How a stream ended, and the answers to the requests.
use crate::lines::line_of;
use crate::print::{part, print_bytes};
use deframer::{Deframer, End};
use queue::{Job, Queue};
use records::{Record, Response, Span};
use refusals::Refusal;
use std::io::Stdout;

pub(crate) fn print_end(out: Stdout, deframer: Deframer, buffer: &[u8], ceiling: u32) {
    let _ = match deframer::finish(deframer, buffer, ceiling) {
        End::Clean => println!(out; "the stream ends clean"),
        End::Short(held) => println!(out; "the stream ends short, with {held} bytes held"),
        End::Refused(refusal) => {
            let code = refusal.number();
            println!(out; "the stream is refused with {code}")
        }
    };
}

// As many as can wait, and the one that is refused.
const TAKES: usize = 65;

// Takes the jobs, the one that is due first before the others, and answers each. The last take is refused, and says why.
pub(crate) fn answer_all(out: Stdout, q: Queue) {
    let mut waiting = q;
    for _ in 0..TAKES {
        let removed = queue::take(waiting);
        match removed.job {
            Ok(job) => answer(out, job),
            Err(refusal) => return print_last(out, refusal),
        }
        waiting = removed.queue;
    }
}

// What the last take said: nothing waits, or the queue is not valid.
fn print_last(out: Stdout, refusal: Refusal) {
    let _ = if refusal == Refusal::QueueEmpty {
        println!(out; "nothing waits")
    } else {
        let number = refusal.number();
        println!(out; "the queue is refused with {number}")
    };
}

// Writes the response to a job under the ceiling of the job's line, and prints its bytes.
fn answer(out: Stdout, job: Job) {
    let line = line_of(job.connection);
    let response = Record::Response(Response {
        id: job.request,
        header_version: 0,
        version: 0,
        call_type: 0,
        request_id: job.request,
        ret: 0,
        func_ret: 0,
        error_msg: Span { start: 0, len: 0 },
        message_type: 0,
        content_type: 0,
        content_encoding: 0,
        attachment_size: 0,
        rows: 0,
    });
    let mut frame = [0u8; 64];
    let rows = [0; 4];
    let written = writer::write(response, b"", &rows, b"done", &mut frame, line.ceiling);
    let request = job.request;
    let _ = print!(out; "request {request} is due first; its response:");
    match written {
        Ok(size) => print_bytes(out, part(&frame, 0, size)),
        Err(_) => {
            let _ = print!(out; " none");
        }
    }
    let _ = println!(out);
}
