// What C links: the functions of the library `bekurapi`, exported. include/bekurapi.h declares them.
//
// Each calls the library's function of the same name, and states its clauses again.
// C's interface: a generic function has no name that C can link.
#![tactic(auto)]

ghost use Rattle.std.specs.Prelude.{◌≡◌};
ghost use Rattle.fixed_header.specs.Header.{header_error};
ghost use Rattle.deframer.specs.Deframe.{ended};
ghost use Rattle.schema.specs.declared.Kind.TheVariants as kinds;
ghost use Rattle.bekurapi.specs.Answers.{ParsedAs, deframer_of, DeframedAs, end_error, end_short};
ghost use Rattle.bekurapi.specs.Kinds.{ReadAs, WrittenAs};

// The error code of a fixed header under a connection's ceiling: 0 where it is good, 41 for a ceiling outside 16 to 65,536, 9 where it is
// not 16 bytes, else 3 to 7.
#[unsafe(no_mangle)]
pub extern "C" fn trpc_header_check(bytes: &[u8], ceiling: u32) -> u32
    ensures { result ≡ header_error ceiling bytes.now }
{
    bekurapi::trpc_header_check(bytes, ceiling)
}

// What a fixed header says. Answers its error code; where it is 0, `frame_type` is the stream type, or 0 for unary. All are 0
// after a refusal.
#[unsafe(no_mangle)]
pub extern "C" fn trpc_header_parse(
    bytes: &[u8],
    ceiling: u32,
    frame_type: &mut u32,
    total: &mut usize,
    header_size: &mut usize,
    id: &mut u32,
    header_version: &mut u8,
) -> u32
    ensures { ParsedAs ceiling bytes.now
        result frame_type.new total.new header_size.new id.new
        header_version.new }
{
    bekurapi::trpc_header_parse(
        bytes,
        ceiling,
        frame_type,
        total,
        header_size,
        id,
        header_version,
    )
}

// One call of the deframer, whose state is `held` and `error`, both 0 when fresh. Answers the error code; where it is 0, `size`
// is that of the whole frame at the start of the buffer, or 0 where more is needed.
#[unsafe(no_mangle)]
pub extern "C" fn trpc_deframe(
    held: &mut usize,
    error: &mut u32,
    buffer: &mut [u8],
    ceiling: u32,
    piece: &[u8],
    taken: &mut usize,
    size: &mut usize,
) -> u32
    ensures { DeframedAs ceiling held.old error.old buffer.old piece.now
        result held.new error.new buffer.new taken.new size.new }
{
    bekurapi::trpc_deframe(held, error, buffer, ceiling, piece, taken, size)
}

// The end of the stream. Answers the error code; where it is 0, `short_by` is how many bytes of an unfinished frame are held.
#[unsafe(no_mangle)]
pub extern "C" fn trpc_finish(
    held: usize,
    error: u32,
    buffer: &[u8],
    ceiling: u32,
    short_by: &mut usize,
) -> u32
    ensures { (result ≡ end_error (ended ceiling (deframer_of held error) buffer.now))
        × (short_by.new ≡ end_short (ended ceiling (deframer_of held error) buffer.now)) }
{
    bekurapi::trpc_finish(held, error, buffer, ceiling, short_by)
}

// ---- The six readers: each reads a frame as its kind. It answers the error code, and leaves the row numbers and the 25 numbers of the
// record and its frame's parts.

#[unsafe(no_mangle)]
pub extern "C" fn trpc_read_request(
    frame: &[u8],
    ceiling: u32,
    rows: &mut [u32],
    record: &mut [u32; 25],
) -> u32
    ensures { ReadAs ceiling kinds.Request frame.now rows.old result rows.new «record».new }
{
    bekurapi::trpc_read_request(frame, ceiling, rows, record)
}

#[unsafe(no_mangle)]
pub extern "C" fn trpc_read_response(
    frame: &[u8],
    ceiling: u32,
    rows: &mut [u32],
    record: &mut [u32; 25],
) -> u32
    ensures { ReadAs ceiling kinds.Response frame.now rows.old result rows.new «record».new }
{
    bekurapi::trpc_read_response(frame, ceiling, rows, record)
}

#[unsafe(no_mangle)]
pub extern "C" fn trpc_read_init(
    frame: &[u8],
    ceiling: u32,
    rows: &mut [u32],
    record: &mut [u32; 25],
) -> u32
    ensures { ReadAs ceiling kinds.Init frame.now rows.old result rows.new «record».new }
{
    bekurapi::trpc_read_init(frame, ceiling, rows, record)
}

#[unsafe(no_mangle)]
pub extern "C" fn trpc_read_data(
    frame: &[u8],
    ceiling: u32,
    rows: &mut [u32],
    record: &mut [u32; 25],
) -> u32
    ensures { ReadAs ceiling kinds.Data frame.now rows.old result rows.new «record».new }
{
    bekurapi::trpc_read_data(frame, ceiling, rows, record)
}

#[unsafe(no_mangle)]
pub extern "C" fn trpc_read_feedback(
    frame: &[u8],
    ceiling: u32,
    rows: &mut [u32],
    record: &mut [u32; 25],
) -> u32
    ensures { ReadAs ceiling kinds.Feedback frame.now rows.old result rows.new «record».new }
{
    bekurapi::trpc_read_feedback(frame, ceiling, rows, record)
}

#[unsafe(no_mangle)]
pub extern "C" fn trpc_read_close(
    frame: &[u8],
    ceiling: u32,
    rows: &mut [u32],
    record: &mut [u32; 25],
) -> u32
    ensures { ReadAs ceiling kinds.Close frame.now rows.old result rows.new «record».new }
{
    bekurapi::trpc_read_close(frame, ceiling, rows, record)
}

// ---- The six writers: each writes the frame of a record of its kind, given as 25 numbers, to the start of `out`. It answers the error
// code; `size` is the frame's, 0 after a refusal.

#[unsafe(no_mangle)]
pub extern "C" fn trpc_write_request(
    record: &[u32; 25],
    source: &[u8],
    rows: &[u32],
    body: &[u8],
    out: &mut [u8],
    ceiling: u32,
    size: &mut usize,
) -> u32
    ensures { WrittenAs ceiling kinds.Request «record».now source.now rows.now body.now
        out.old result size.new out.new }
{
    bekurapi::trpc_write_request(record, source, rows, body, out, ceiling, size)
}

#[unsafe(no_mangle)]
pub extern "C" fn trpc_write_response(
    record: &[u32; 25],
    source: &[u8],
    rows: &[u32],
    body: &[u8],
    out: &mut [u8],
    ceiling: u32,
    size: &mut usize,
) -> u32
    ensures { WrittenAs ceiling kinds.Response «record».now source.now rows.now body.now
        out.old result size.new out.new }
{
    bekurapi::trpc_write_response(record, source, rows, body, out, ceiling, size)
}

#[unsafe(no_mangle)]
pub extern "C" fn trpc_write_init(
    record: &[u32; 25],
    source: &[u8],
    rows: &[u32],
    body: &[u8],
    out: &mut [u8],
    ceiling: u32,
    size: &mut usize,
) -> u32
    ensures { WrittenAs ceiling kinds.Init «record».now source.now rows.now body.now
        out.old result size.new out.new }
{
    bekurapi::trpc_write_init(record, source, rows, body, out, ceiling, size)
}

#[unsafe(no_mangle)]
pub extern "C" fn trpc_write_data(
    record: &[u32; 25],
    source: &[u8],
    rows: &[u32],
    body: &[u8],
    out: &mut [u8],
    ceiling: u32,
    size: &mut usize,
) -> u32
    ensures { WrittenAs ceiling kinds.Data «record».now source.now rows.now body.now
        out.old result size.new out.new }
{
    bekurapi::trpc_write_data(record, source, rows, body, out, ceiling, size)
}

#[unsafe(no_mangle)]
pub extern "C" fn trpc_write_feedback(
    record: &[u32; 25],
    source: &[u8],
    rows: &[u32],
    body: &[u8],
    out: &mut [u8],
    ceiling: u32,
    size: &mut usize,
) -> u32
    ensures { WrittenAs ceiling kinds.Feedback «record».now source.now rows.now body.now
        out.old result size.new out.new }
{
    bekurapi::trpc_write_feedback(record, source, rows, body, out, ceiling, size)
}

#[unsafe(no_mangle)]
pub extern "C" fn trpc_write_close(
    record: &[u32; 25],
    source: &[u8],
    rows: &[u32],
    body: &[u8],
    out: &mut [u8],
    ceiling: u32,
    size: &mut usize,
) -> u32
    ensures { WrittenAs ceiling kinds.Close «record».now source.now rows.now body.now
        out.old result size.new out.new }
{
    bekurapi::trpc_write_close(record, source, rows, body, out, ceiling, size)
}
