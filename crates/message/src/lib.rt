// The tRPC messages: what a frame says, read as one of six kinds.
#![tactic(auto)]

mod frames;

ghost use Rattle.std.specs.Prelude.{◌≡◌, min, length};
ghost use Rattle.message.specs.Frames.{read_frame};
ghost use Rattle.message.specs.Spans.{bytes_at, place_after, spans_given, spans_of};

use fixed_header::HEADER;
use frames::{read_parts, span};
use records::{Record, Span};
use refusals::Refusal;
use schema::Kind;

// What a frame reads as: its record or the refusal, and its parts as starts and lengths; an empty one is 0, 0.
// Parts beside the answer and no Result of both: those of a refused frame are promised, too (`spans_of`).
#[derive(Clone, Copy)]
pub struct Located {
    pub answer: Result<Record, Refusal>,
    pub header: Span,
    pub body: Span,
    pub attachment: Span,
}

// Reads a frame as the kind that the caller expects, under its connection's ceiling. The map rows go to the first 256 of
// the lent numbers, four to a row.
pub fn read_spans(kind: Kind, frame: &[u8], ceiling: u32, rows: &mut [u32]) -> Located
    ensures { (spans_given result ≡ spans_of (read_frame ceiling kind frame.now rows.old) (length frame.now))
        × (rows.new ≡ (read_frame ceiling kind frame.now rows.old).rows) }
{
    let size = frame.len();
    match read_parts(kind, frame, ceiling, rows) {
        Ok(parts) => Located {
            answer: Ok(parts.content),
            header: span(HEADER, parts.body),
            body: span(parts.body, size),
            attachment: span(parts.attachment, size),
        },
        Err(refusal) => {
            let none = Span { start: 0, len: 0 };
            Located {
                answer: Err(refusal),
                header: none,
                body: none,
                attachment: none,
            }
        }
    }
}

// The bytes of the frame that a span names, as far as they exist.
pub fn bytes_at(frame: &[u8], span: Span) -> &[u8]
    ensures { (result.now ≡ bytes_at frame.now span)
        × (result.ref_ptr ≡ place_after frame.entry.ref_ptr (min span.start (length frame.now))) }
{
    let start = span.start as usize;
    let end = start + span.len as usize;
    let size = frame.len();
    if size <= start {
        return &frame[size..];
    }
    if size < end {
        return &frame[start..];
    }
    &frame[start..end]
}
