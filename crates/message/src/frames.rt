// A frame read as a kind: which frames fit it, what its message says and where its parts are.
ghost use Rattle.std.specs.Prelude.{◌≡◌, ◌+◌, ◌-◌, ◌≤◌, length, take, eqb, ◌&&◌, Ok};
ghost use Rattle.fixed_header.specs.Header.{max_frame, parsed};
ghost use Rattle.records.specs.Records.{attachment_size_of};
ghost use Rattle.message.specs.Frames.{kind_fits, read_frame};
ghost use Rattle.decoder.specs.Rows.{row_numbers};
ghost use Rattle.message.specs.Spans.{span_from};
ghost use Rattle.message.specs.Parts.{PartsOf, body_at, Whole};

use decoder::{ROW_NUMBERS, clear_rows, decode};
use fixed_header::{FixedHeader, HEADER, ceiling_ok, parse_header};
use records::{Record, Span, record_of};
use refusals::Refusal;
use schema::{Kind, schema_number};

// What a frame says, and where its body and its attachment start. The header ends where the body starts, and both of them end
// with the frame.
#[derive(Clone, Copy)]
pub(crate) struct Parts {
    pub content: Record,
    pub body: usize,
    pub attachment: usize,
}

// Whether a frame of these types is one of the kind.
#[tactic(auto, unfolding(crate::specs::Frames::kind_fits))]
fn kind_fits(kind: Kind, data_type: u8, stream_type: u8) -> bool
    ensures { result ≡ kind_fits kind data_type stream_type }
{
    match kind {
        Kind::Request | Kind::Response => data_type == 0,
        Kind::Init => is_stream(data_type, stream_type, 1),
        Kind::Data => is_stream(data_type, stream_type, 2),
        Kind::Feedback => is_stream(data_type, stream_type, 3),
        Kind::Close => is_stream(data_type, stream_type, 4),
    }
}

fn is_stream(data_type: u8, stream_type: u8, wanted: u8) -> bool
    ensures { result ≡ eqb data_type 1 && eqb stream_type wanted }
{
    data_type == 1 && stream_type == wanted
}

// The place after the header: the message of a stream frame is its header, and Data has only a body.
#[tactic(auto, unfolding(crate::specs::Parts::body_at))]
fn body_at(kind: Kind, header_size: usize, size: usize) -> usize
    requires { header_size ≤ 65535 }
    ensures { result ≡ body_at kind header_size size }
{
    match kind {
        Kind::Request | Kind::Response => HEADER + header_size,
        Kind::Init | Kind::Feedback | Kind::Close => size,
        Kind::Data => HEADER,
    }
}

// The attachment size that a request or a response names; 0 of the other kinds.
#[tactic(auto, unfolding(records::specs::Records::attachment_size_of))]
fn attachment_size(kind: Kind, v: [u32; 16]) -> u32
    ensures { result ≡ attachment_size_of kind v }
{
    match kind {
        Kind::Request => v[13],
        Kind::Response => v[10],
        Kind::Init | Kind::Data | Kind::Feedback | Kind::Close => 0,
    }
}

// The message of a frame that is whole and of its kind.
fn read_message(
    kind: Kind,
    frame: &[u8],
    header: FixedHeader,
    rows: &mut [u32],
) -> Result<Parts, Refusal>
    requires { (row_numbers ≤ length rows.old) × Whole kind frame.now header.header_size header.id header.version }
    ensures { PartsOf (read_frame max_frame kind frame.now rows.old) (length frame.now)
        result rows.new }
{
    let size = frame.len();
    let body = body_at(kind, header.header_size, size);
    let slots = decode(frame, HEADER, body, schema_number(kind), rows)?;
    let values = slots.values;
    let attachment = attachment_size(kind, values) as usize;
    if size - body < attachment {
        clear_rows(rows);
        return Err(Refusal::BadBody);
    }
    let count = slots.rows as u32;
    Ok(Parts {
        content: record_of(kind, header.id, header.version, values, count),
        body,
        attachment: size - attachment,
    })
}

// A frame whose fixed header is good: from here on its ceiling says nothing (`read_under`).
fn read_whole(
    kind: Kind,
    frame: &[u8],
    header: FixedHeader,
    rows: &mut [u32],
) -> Result<Parts, Refusal>
    requires { (row_numbers ≤ length rows.old) × (16 ≤ length frame.now) × (Ok header ≡ parsed max_frame (take 16 frame.now)) }
    ensures { PartsOf (read_frame max_frame kind frame.now rows.old) (length frame.now)
        result rows.new }
{
    if frame.len() != header.total {
        return Err(Refusal::WrongFrame);
    }
    if !kind_fits(kind, frame[2], frame[3]) {
        return Err(Refusal::WrongFrame);
    }
    read_message(kind, frame, header, rows)
}

// A frame read as a kind: the order of the error codes is 41; 16; 9 for fewer than 16 bytes; 3 to 7; 9; 10 to 14; 15.
pub(crate) fn read_parts(
    kind: Kind,
    frame: &[u8],
    ceiling: u32,
    rows: &mut [u32],
) -> Result<Parts, Refusal>
    ensures { PartsOf (read_frame ceiling kind frame.now rows.old) (length frame.now)
        result rows.new }
{
    if !ceiling_ok(ceiling) {
        return Err(Refusal::BadCeiling);
    }
    if rows.len() < ROW_NUMBERS {
        return Err(Refusal::RowsShort);
    }
    if frame.len() < HEADER {
        return Err(Refusal::WrongFrame); // "fewer than 16 bytes is 9"
    }
    let header = parse_header(&frame[..HEADER], ceiling)?;
    read_whole(kind, frame, header, rows)
}

// The part from one place up to another as a start and a length.
pub(crate) fn span(start: usize, end: usize) -> Span
    requires { end ≤ max_frame }
    ensures { result ≡ span_from start (end - start) }
{
    if end <= start {
        return Span { start: 0, len: 0 };
    }
    Span {
        start: start as u32,
        len: (end - start) as u32,
    }
}
