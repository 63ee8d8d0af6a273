// Frames that are read as requests.
use crate::lines::Line;
use crate::print::{part, print_raw};
use fixed_header::{FixedHeader, FrameType};
use message::{Located, read_spans};
use queue::Queue;
use records::{Record, Request, Span};
use schema::Kind;
use std::io::Stdout;

// Reads a frame of a line as a request and queues a job for it. The deframer has found its header good.
pub(crate) fn accept(
    out: Stdout,
    q: Queue,
    line: Line,
    frame: &[u8],
    rows: &mut [u32],
    now: u64,
) -> Queue {
    let fixed = part(frame, 0, fixed_header::HEADER);
    let Ok(header) = fixed_header::parse_header(fixed, line.ceiling) else {
        return q;
    };
    let total = header.total;
    let _ = print!(out; "frame of {total} bytes: ");
    if !is_unary(out, header) {
        return q;
    }
    let located = read_spans(Kind::Request, frame, line.ceiling, rows);
    match located.answer {
        Ok(record) => accept_record(out, q, line, frame, located, record, rows, now),
        Err(refusal) => {
            let code = refusal.number();
            let _ = println!(out; "bad, error {code}");
            q
        }
    }
}

// Queues a job for the request that was read.
fn accept_record(
    out: Stdout,
    q: Queue,
    line: Line,
    frame: &[u8],
    located: Located,
    record: Record,
    rows: &[u32],
    now: u64,
) -> Queue {
    let Record::Request(request) = record else {
        return q;
    };
    print_request(out, frame, located, request, rows);
    add(out, q, line, request, now)
}

// Whether a frame may be a request; reports one that is not.
// No Display: the type is of `fixed_header`, which prints nothing.
fn is_unary(out: Stdout, header: FixedHeader) -> bool {
    let name = match header.frame_type {
        FrameType::Unary => return true,
        FrameType::Init => "init",
        FrameType::Data => "data",
        FrameType::Feedback => "feedback",
        FrameType::Close => "close",
    };
    let id = header.id;
    let _ = println!(out; "{name} of stream {id}, no request");
    false
}

fn print_request(out: Stdout, frame: &[u8], located: Located, request: Request, rows: &[u32]) {
    let id = request.id;
    let version = request.header_version;
    let timeout = request.timeout;
    let _ = print!(out; "request {id}, version {version}, timeout {timeout}, func ");
    print_span(out, frame, request.func);
    for row in rows.chunks_exact(4).take(request.rows as usize) {
        print_row(out, frame, row);
    }
    let _ = print!(out; ", body \"");
    print_span(out, frame, located.body);
    let _ = println!(out; "\"");
}

// A byte field, as text.
fn print_span(out: Stdout, frame: &[u8], span: Span) {
    let start = span.start as usize;
    print_raw(out, part(frame, start, start + span.len as usize));
}

// A row of the map: its key and its value.
fn print_row(out: Stdout, frame: &[u8], row: &[u32]) {
    let &[key_start, key_len, value_start, value_len] = row else {
        return;
    };
    let key = Span {
        start: key_start,
        len: key_len,
    };
    let value = Span {
        start: value_start,
        len: value_len,
    };
    let _ = print!(out; ", ");
    print_span(out, frame, key);
    let _ = print!(out; " = ");
    print_span(out, frame, value);
}

// Queues the job of a request.
fn add(out: Stdout, q: Queue, line: Line, request: Request, now: u64) -> Queue {
    let added = queue::add(q, queue::job_of(request, line.connection, now));
    let _ = match added.answer {
        Ok(()) => {
            let count = added.queue.count;
            println!(out; "  queued at {now} ms, {count} waiting")
        }
        Err(refusal) => {
            let number = refusal.number();
            println!(out; "  not queued, error {number}")
        }
    };
    added.queue
}
