// The gateway: a Feedback frame, which is no request, then four requests, then the beginning of a frame that never gets whole. The
// jobs are due in the order 2, 1, 3; the second 2 is refused, since 2 waits already.
ghost use Rattle.std.specs.Prelude.{◌≤◌};

use crate::frames::{VERSION, copy_to, write_frame};
use crate::lines::GATEWAY;
use records::{Feedback, Record, Request, Span};

// Where piece number n of the stream starts, from 0: the pieces have 1, 7, 31, 3, 19 and 113 bytes, and then again.
pub(crate) fn piece_start(n: usize) -> usize
    requires { n ≤ 1024 }
{
    n / 6 * 174 + start_in_turn(n % 6)
}

fn start_in_turn(k: usize) -> usize
    ensures { result ≤ 61 }
{
    match k {
        0 => 0,
        1 => 1,
        2 => 8,
        3 => 39,
        4 => 42,
        _ => 61,
    }
}

// Writes the stream, and returns its length.
pub(crate) fn write_stream(out: &mut [u8]) -> usize {
    let feedback = Record::Feedback(Feedback {
        id: 5,
        header_version: VERSION,
        window_size_increment: 300,
        rows: 0,
    });
    let rows = [0; 4];
    let at = write_frame(feedback, b"", &rows, b"", out, GATEWAY.ceiling, 0);
    let at = write_orders(out, at);
    copy_to(b"\x09\x30\x00\x00\x00\x00\x00", out, at)
}

// The requests.
fn write_orders(out: &mut [u8], at: usize) -> usize {
    let at = write_request(1, 4000000000, b"cell4/cell.Robot/Park", b"", out, at);
    let at = write_request(2, 600000, b"cell4/cell.Robot/Pick", b"crate 12", out, at);
    let at = write_request(3, 0, b"cell7/cell.Robot/Report", b"since noon", out, at);
    write_request(
        2,
        5000,
        b"cell4/cell.Robot/Pick",
        b"crate 12, again",
        out,
        at,
    )
}

// A request with one row. Its source is the key, a value of one byte, and the function's name.
fn write_request(
    id: u32,
    timeout: u32,
    source: &[u8],
    body: &[u8],
    out: &mut [u8],
    at: usize,
) -> usize {
    let none = Span { start: 0, len: 0 };
    let func = Span {
        start: 5,
        len: name_size(source),
    };
    let request = Record::Request(Request {
        id,
        header_version: VERSION,
        version: 0,
        call_type: 0,
        request_id: id,
        timeout,
        caller: none,
        callee: none,
        func,
        message_type: 0,
        content_type: 0,
        content_encoding: 0,
        attachment_size: 0,
        rows: 1,
    });
    let rows = [0, 4, 4, 1];
    write_frame(request, source, &rows, body, out, GATEWAY.ceiling, at)
}

// How many bytes follow the key and its value.
fn name_size(source: &[u8]) -> u32 {
    let size = source.len();
    if size < 5 {
        return 0;
    }
    if 1000 < size {
        return 0;
    }
    (size - 5) as u32
}
