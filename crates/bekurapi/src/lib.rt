// The library's interface for C: functions over numbers and slices, which crate `bekurapi_c` exports. include/bekurapi.h declares them.
//
// No function here has a `requires`: each takes every argument, and answers 0 or an error code of documents 01 and 02.
// C's interface: a function for each kind, and numbers for what an enum would say.
#![tactic(auto)]

mod answers;
mod kinds;
mod numbers;

ghost use Rattle.std.specs.Prelude.{◌≡◌};
ghost use Rattle.fixed_header.specs.Header.{header_error};
ghost use Rattle.deframer.specs.Deframe.{ended};
ghost use Rattle.schema.specs.declared.Kind.TheVariants as kinds;
ghost use Rattle.bekurapi.specs.Answers.{ParsedAs, deframer_of, DeframedAs, end_error, end_short};
ghost use Rattle.bekurapi.specs.Kinds.{ReadAs, WrittenAs};

use answers::{end_error, end_short, error_of, header_in, progress_error, progress_size};
use deframer::{Deframer, deframe, finish};
use fixed_header::parse_header;
use kinds::{read_as, write_as};
use schema::Kind;

// The error code of a fixed header under a connection's ceiling: 0 where it is good, 41 for a ceiling outside 16 to 65,536, 9 where it is
// not 16 bytes, else 3 to 7.
pub fn trpc_header_check(bytes: &[u8], ceiling: u32) -> u32
    ensures { result ≡ header_error ceiling bytes.now }
{
    error_of(fixed_header::check_header(bytes, ceiling))
}

// What a fixed header says. Answers its error code; where it is 0, `frame_type` is the stream type, or 0 for unary. All are 0
// after a refusal.
pub fn trpc_header_parse(
    bytes: &[u8],
    ceiling: u32,
    frame_type: &mut u32,
    total: &mut usize,
    header_size: &mut usize,
    id: &mut u32,
    header_version: &mut u8,
) -> u32
    ensures { ParsedAs ceiling bytes.now
        result frame_type.new total.new header_size.new id.new
        header_version.new }
{
    let answer = parse_header(bytes, ceiling);
    let header = header_in(answer);
    *frame_type = header.frame_type.stream_type() as u32;
    *total = header.total;
    *header_size = header.header_size;
    *id = header.id;
    *header_version = header.version;
    error_of(answer)
}

// One call of the deframer, whose state is `held` and `error`, both 0 when fresh. Answers the error code; where it is 0, `size`
// is that of the whole frame at the start of the buffer, or 0 where more is needed.
pub fn trpc_deframe(
    held: &mut usize,
    error: &mut u32,
    buffer: &mut [u8],
    ceiling: u32,
    piece: &[u8],
    taken: &mut usize,
    size: &mut usize,
) -> u32
    ensures { DeframedAs ceiling held.old error.old buffer.old piece.now
        result held.new error.new buffer.new taken.new size.new }
{
    let state = Deframer {
        held: *held,
        error: *error,
    };
    let step = deframe(state, buffer, ceiling, piece);
    let progress = step.progress;
    let next = step.next;
    *held = next.held;
    *error = next.error;
    *taken = step.taken;
    *size = progress_size(progress);
    progress_error(progress)
}

// The end of the stream. Answers the error code; where it is 0, `short_by` is how many bytes of an unfinished frame are held.
pub fn trpc_finish(
    held: usize,
    error: u32,
    buffer: &[u8],
    ceiling: u32,
    short_by: &mut usize,
) -> u32
    ensures { (result ≡ end_error (ended ceiling (deframer_of held error) buffer.now))
        × (short_by.new ≡ end_short (ended ceiling (deframer_of held error) buffer.now)) }
{
    let end = finish(Deframer { held, error }, buffer, ceiling);
    *short_by = end_short(end);
    end_error(end)
}

// ---- The six readers: each reads a frame as its kind. It answers the error code, and leaves the row numbers and the 25 numbers of the
// record and its frame's parts.

pub fn trpc_read_request(
    frame: &[u8],
    ceiling: u32,
    rows: &mut [u32],
    record: &mut [u32; 25],
) -> u32
    ensures { ReadAs ceiling kinds.Request frame.now rows.old result rows.new «record».new }
{
    read_as(Kind::Request, frame, ceiling, rows, record)
}

pub fn trpc_read_response(
    frame: &[u8],
    ceiling: u32,
    rows: &mut [u32],
    record: &mut [u32; 25],
) -> u32
    ensures { ReadAs ceiling kinds.Response frame.now rows.old result rows.new «record».new }
{
    read_as(Kind::Response, frame, ceiling, rows, record)
}

pub fn trpc_read_init(frame: &[u8], ceiling: u32, rows: &mut [u32], record: &mut [u32; 25]) -> u32
    ensures { ReadAs ceiling kinds.Init frame.now rows.old result rows.new «record».new }
{
    read_as(Kind::Init, frame, ceiling, rows, record)
}

pub fn trpc_read_data(frame: &[u8], ceiling: u32, rows: &mut [u32], record: &mut [u32; 25]) -> u32
    ensures { ReadAs ceiling kinds.Data frame.now rows.old result rows.new «record».new }
{
    read_as(Kind::Data, frame, ceiling, rows, record)
}

pub fn trpc_read_feedback(
    frame: &[u8],
    ceiling: u32,
    rows: &mut [u32],
    record: &mut [u32; 25],
) -> u32
    ensures { ReadAs ceiling kinds.Feedback frame.now rows.old result rows.new «record».new }
{
    read_as(Kind::Feedback, frame, ceiling, rows, record)
}

pub fn trpc_read_close(frame: &[u8], ceiling: u32, rows: &mut [u32], record: &mut [u32; 25]) -> u32
    ensures { ReadAs ceiling kinds.Close frame.now rows.old result rows.new «record».new }
{
    read_as(Kind::Close, frame, ceiling, rows, record)
}

// ---- The six writers: each writes the frame of a record of its kind, given as 25 numbers, to the start of `out`. It answers the error
// code; `size` is the frame's, 0 after a refusal.

pub fn trpc_write_request(
    record: &[u32; 25],
    source: &[u8],
    rows: &[u32],
    body: &[u8],
    out: &mut [u8],
    ceiling: u32,
    size: &mut usize,
) -> u32
    ensures { WrittenAs ceiling kinds.Request «record».now source.now rows.now body.now
        out.old result size.new out.new }
{
    write_as(
        Kind::Request,
        record,
        source,
        rows,
        body,
        ceiling,
        out,
        size,
    )
}

pub fn trpc_write_response(
    record: &[u32; 25],
    source: &[u8],
    rows: &[u32],
    body: &[u8],
    out: &mut [u8],
    ceiling: u32,
    size: &mut usize,
) -> u32
    ensures { WrittenAs ceiling kinds.Response «record».now source.now rows.now body.now
        out.old result size.new out.new }
{
    write_as(
        Kind::Response,
        record,
        source,
        rows,
        body,
        ceiling,
        out,
        size,
    )
}

pub fn trpc_write_init(
    record: &[u32; 25],
    source: &[u8],
    rows: &[u32],
    body: &[u8],
    out: &mut [u8],
    ceiling: u32,
    size: &mut usize,
) -> u32
    ensures { WrittenAs ceiling kinds.Init «record».now source.now rows.now body.now
        out.old result size.new out.new }
{
    write_as(Kind::Init, record, source, rows, body, ceiling, out, size)
}

pub fn trpc_write_data(
    record: &[u32; 25],
    source: &[u8],
    rows: &[u32],
    body: &[u8],
    out: &mut [u8],
    ceiling: u32,
    size: &mut usize,
) -> u32
    ensures { WrittenAs ceiling kinds.Data «record».now source.now rows.now body.now
        out.old result size.new out.new }
{
    write_as(Kind::Data, record, source, rows, body, ceiling, out, size)
}

pub fn trpc_write_feedback(
    record: &[u32; 25],
    source: &[u8],
    rows: &[u32],
    body: &[u8],
    out: &mut [u8],
    ceiling: u32,
    size: &mut usize,
) -> u32
    ensures { WrittenAs ceiling kinds.Feedback «record».now source.now rows.now body.now
        out.old result size.new out.new }
{
    write_as(
        Kind::Feedback,
        record,
        source,
        rows,
        body,
        ceiling,
        out,
        size,
    )
}

pub fn trpc_write_close(
    record: &[u32; 25],
    source: &[u8],
    rows: &[u32],
    body: &[u8],
    out: &mut [u8],
    ceiling: u32,
    size: &mut usize,
) -> u32
    ensures { WrittenAs ceiling kinds.Close «record».now source.now rows.now body.now
        out.old result size.new out.new }
{
    write_as(Kind::Close, record, source, rows, body, ceiling, out, size)
}
