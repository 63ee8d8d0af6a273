// The reader of a frame: its record, and its parts as subslices of the caller's frame.
#![tactic(auto)]

ghost use Rattle.std.specs.Prelude.{◌≡◌, length};
ghost use Rattle.refusals.specs.Refusals.{in_numbers};
ghost use Rattle.message.specs.Frames.{read_frame};
ghost use Rattle.message.specs.Spans.{spans_of};
ghost use Rattle.reader.specs.Places.{PartsStand};

use message::{bytes_at, read_spans};
use records::Record;
use refusals::Refusal;
use schema::Kind;

// What a frame reads as: the record or the refusal, and the parts of the caller's frame, which are empty where it is
// refused.
// No Result of both: the empty parts have a place in the frame (`PartsStand`).
#[derive(Clone, Copy)]
pub struct Reading<'a> {
    pub answer: Result<Record, Refusal>,
    pub header: &'a [u8],
    pub body: &'a [u8],
    pub attachment: &'a [u8],
}

// Reads a frame as the kind that the caller expects, under its connection's ceiling. The map rows go to the first 256 of
// the lent numbers, four to a row.
pub fn read<'a, 'b>(kind: Kind, frame: &'a [u8], ceiling: u32, rows: &'b mut [u32]) -> Reading<'a>
    ensures { ((in_numbers result.answer ≡ (read_frame ceiling kind frame.now rows.old).answer)
        × (result.header.now ≡ (read_frame ceiling kind frame.now rows.old).header)
        × (result.body.now ≡ (read_frame ceiling kind frame.now rows.old).body)
        × (result.attachment.now ≡ (read_frame ceiling kind frame.now rows.old).attachment)
        × (rows.new ≡ (read_frame ceiling kind frame.now rows.old).rows))
        × PartsStand frame.entry.ref_ptr
        (spans_of (read_frame ceiling kind frame.now rows.old) (length frame.now))
        result.header.ref_ptr result.body.ref_ptr result.attachment.ref_ptr }
{
    let located = read_spans(kind, frame, ceiling, rows);
    Reading {
        answer: located.answer,
        header: bytes_at(frame, located.header),
        body: bytes_at(frame, located.body),
        attachment: bytes_at(frame, located.attachment),
    }
}
