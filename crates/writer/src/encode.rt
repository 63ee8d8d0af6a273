// A frame: its message after the room for the 16 bytes, its body, then the 16 bytes with the sizes reached.
ghost use Rattle.std.specs.Prelude.{◌≡◌, ◌+◌, ◌≤◌, length};
ghost use Rattle.fixed_header.specs.Header.{max_frame};
ghost use Rattle.refusals.specs.Refusals.{in_numbers};
ghost use Rattle.writer.specs.Writing.{frame_type_of, header_size_of};
ghost use Rattle.writer.specs.Straight.{Did, message_bytes, frame_with, written_with, written_of};

use crate::message::Message;
use fixed_header::{FixedHeader, FrameType, HEADER, ceiling_ok, put_header};
use records::Outline;
use refusals::Refusal;
use schema::Kind;
use writer_checks::content_error;

// No From: both types are of other crates.
fn frame_type(kind: Kind) -> FrameType
    ensures { result ≡ frame_type_of kind }
{
    match kind {
        Kind::Request => FrameType::Unary,
        Kind::Response => FrameType::Unary,
        Kind::Init => FrameType::Init,
        Kind::Data => FrameType::Data,
        Kind::Feedback => FrameType::Feedback,
        Kind::Close => FrameType::Close,
    }
}

// Bytes 9 and 10: the size of the message in a unary frame, and 0 in a stream frame.
fn header_size(frame_type: FrameType, size: usize) -> usize
    ensures { result ≡ header_size_of frame_type size }
{
    match frame_type {
        FrameType::Unary => size,
        FrameType::Init => 0,
        FrameType::Data => 0,
        FrameType::Feedback => 0,
        FrameType::Close => 0,
    }
}

fn put_body(body: &[u8], out: &mut [u8], at: usize) -> usize
    requires { at + length body.now ≤ length out.old }
    ensures { Did body.now out.old at result out.new }
{
    let _ = wire_write::write_raw(body, out, at);
    at + body.len()
}

// The frame, for which there is room; returns its size.
fn put_frame(m: &Message, id: u32, version: u8, body: &[u8], out: &mut [u8]) -> usize
    requires { (16 + length (message_bytes m.now.kind m.now.slots.now m.now.rows.now m.now.source.now) + length body.now ≤ max_frame)
        × (16 + length (message_bytes m.now.kind m.now.slots.now m.now.rows.now m.now.source.now) + length body.now ≤ length out.old) }
    ensures { Did (frame_with m.now.kind id version (message_bytes m.now.kind m.now.slots.now m.now.rows.now m.now.source.now) body.now)
        out.old 0 result out.new }
{
    let end = m.put(out, HEADER);
    let total = put_body(body, out, end);
    let header_type = frame_type(m.kind);
    let header = FixedHeader {
        frame_type: header_type,
        total,
        header_size: header_size(header_type, end - HEADER),
        id,
        version,
    };
    put_header(header, out);
    total
}

// Of slots that have no ground of refusal before 19.
fn write_frame(
    m: &Message,
    id: u32,
    version: u8,
    body: &[u8],
    out: &mut [u8],
    ceiling: u32,
) -> Result<usize, Refusal>
    requires { ceiling ≤ max_frame }
    ensures { (in_numbers result ≡ (written_with ceiling m.now.kind id version (message_bytes m.now.kind m.now.slots.now m.now.rows.now m.now.source.now) body.now
        out.old).answer)
        × (out.new ≡ (written_with ceiling m.now.kind id version (message_bytes m.now.kind m.now.slots.now m.now.rows.now m.now.source.now) body.now
        out.old).output) }
{
    m.fits(body.len(), out.len(), ceiling)?;
    Ok(put_frame(m, id, version, body, out))
}

// The frame of an outline and slots.
// The arguments of `write` and `write_slots`: a struct of them would be made and taken apart here alone.
pub(crate) fn write_values(
    outline: Outline,
    slots: &[u32; 16],
    source: &[u8],
    rows: &[u32],
    body: &[u8],
    out: &mut [u8],
    ceiling: u32,
) -> Result<usize, Refusal>
    ensures { (in_numbers result ≡ (written_of ceiling outline.kind outline.id outline.header_version slots.now outline.rows
        source.now rows.now body.now out.old).answer)
        × (out.new ≡ (written_of ceiling outline.kind outline.id outline.header_version slots.now outline.rows
        source.now rows.now body.now out.old).output) }
{
    if !ceiling_ok(ceiling) {
        return Err(Refusal::BadCeiling);
    }
    let kind = outline.kind;
    content_error(kind, slots, outline.rows, source, rows, body.len())?;
    let (rows, _) = rows[..(outline.rows as usize) * 4].as_chunks::<4>();
    let m = Message {
        kind,
        slots,
        rows,
        source,
    };
    write_frame(&m, outline.id, outline.header_version, body, out, ceiling)
}
