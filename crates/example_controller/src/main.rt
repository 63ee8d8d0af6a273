// A small controller, as examples/controller.c is one in C and bindings/rust/examples/controller.rs one in Rust, and it prints
// the same. A gateway's stream arrives in pieces of odd sizes; the frames are cut from it, the requests are read, and a job is
// queued for each. A sensor's line has a ceiling of 4,096 bytes and a buffer of as many: a larger frame is refused. Then the jobs
// are taken, the one that is due first before the others, and each is answered with a response under its line's ceiling.
#![tactic(auto)]

mod answers;
mod frames;
mod gateway;
mod lines;
mod print;
mod requests;
mod sensor;

ghost use Rattle.std.specs.Prelude.{◌≤◌};

use answers::print_end;
use deframer::{Deframer, Progress};
use lines::{GATEWAY, Line, SENSOR};
use print::part;
use queue::Queue;
use std::io::Stdout;

// No stream has more pieces.
const PIECES: usize = 1024;

// A line, its deframer's state, and the jobs that wait.
#[derive(Clone, Copy)]
struct Controller {
    line: Line,
    deframer: Deframer,
    queue: Queue,
}

fn main(rt: HostRuntime) {
    let out = rt.stdout();
    let mut rows = [0u32; 256];
    let q = receive_gateway(out, queue::empty(), &mut rows);
    let q = receive_sensor(out, q, &mut rows);
    answers::answer_all(out, q);
}

// Receives the gateway's stream, and reports its end.
fn receive_gateway(out: Stdout, q: Queue, rows: &mut [u32]) -> Queue {
    let mut stream = [0u8; 1024];
    let length = gateway::write_stream(&mut stream);
    let mut buffer = [0u8; 65536];
    let done = receive(
        out,
        fresh(GATEWAY, q),
        part(&stream, 0, length),
        &mut buffer,
        rows,
    );
    print_end(out, done.deframer, &buffer, GATEWAY.ceiling);
    done.queue
}

// Receives the sensor's stream, and reports its end. The buffer is as long as the ceiling; after it are 64 bytes more,
// which stay as they are.
fn receive_sensor(out: Stdout, q: Queue, rows: &mut [u32]) -> Queue {
    let mut stream = [0u8; 4112];
    let length = sensor::write_stream(&mut stream);
    let mut space = [sensor::GUARD; 4160];
    let room: &mut [u8] = &mut space;
    let start = 0;
    let end = SENSOR.ceiling as usize;
    sensor::print_ceiling(out);
    let done = receive(
        out,
        fresh(SENSOR, q),
        part(&stream, 0, length),
        &mut room[start..end],
        rows,
    );
    print_end(out, done.deframer, part(&space, start, end), SENSOR.ceiling);
    sensor::print_changes(out, part(&space, end, space.len()));
    done.queue
}

// A line before its first byte.
fn fresh(line: Line, q: Queue) -> Controller {
    Controller {
        line,
        deframer: Deframer { held: 0, error: 0 },
        queue: q,
    }
}

// Receives a stream in pieces, one each millisecond, until none is left.
fn receive(
    out: Stdout,
    controller: Controller,
    stream: &[u8],
    buffer: &mut [u8],
    rows: &mut [u32],
) -> Controller {
    let line = controller.line;
    let mut c = controller;
    for now in 0..PIECES {
        let piece = part(stream, piece_start(line, now), piece_start(line, now + 1));
        if piece.len() == 0 {
            break;
        }
        c = receive_piece(out, c, piece, buffer, rows, now as u64);
    }
    c
}

// Where piece number n of a line's stream starts.
fn piece_start(line: Line, n: usize) -> usize
    requires { n ≤ 1024 }
{
    if line.connection == SENSOR.connection {
        return sensor::piece_start(n);
    }
    gateway::piece_start(n)
}

// Cuts the frames from a piece. A call takes a byte at least, unless a header was refused.
fn receive_piece(
    out: Stdout,
    controller: Controller,
    piece: &[u8],
    buffer: &mut [u8],
    rows: &mut [u32],
    now: u64,
) -> Controller {
    let mut c = controller;
    let mut rest = piece;
    for _ in 0..piece.len() {
        if rest.is_empty() {
            break;
        }
        let step = deframer::deframe(c.deframer, buffer, c.line.ceiling, rest);
        rest = rest.get(step.taken..).unwrap_or(&[]);
        c.deframer = step.next;
        // A whole frame may be a request.
        if let Progress::Frame(size) = step.progress {
            c.queue = requests::accept(out, c.queue, c.line, part(buffer, 0, size), rows, now);
        }
    }
    c
}
