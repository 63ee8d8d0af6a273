// The writer of frames: what a record, the bytes that its starts refer to, its rows and a body are as one of six kinds.
#![tactic(auto)]

mod bounds;
mod encode;
mod fields;
mod init;
mod message;
mod put;
mod sizes;

ghost use Rattle.std.specs.Prelude.{◌≡◌};
ghost use Rattle.refusals.specs.Refusals.{in_numbers};
ghost use Rattle.records.specs.Records.{record_of};
ghost use Rattle.writer.specs.Writing.{written};

use encode::write_values;
use records::{Outline, Record, slots_of};
use refusals::Refusal;
use schema::Kind;

// Writes the frame of a record to the start of the output. `source` is the bytes that the starts of the record and of its rows
// count from, and `rows` has four numbers for each row. No frame is longer than the ceiling, and a ceiling that is not 16 to 65,536
// is refused. Answers how many bytes the frame has.
pub fn write(
    record: Record,
    source: &[u8],
    rows: &[u32],
    body: &[u8],
    out: &mut [u8],
    ceiling: u32,
) -> Result<usize, Refusal>
    ensures { (in_numbers result ≡ (written ceiling «record» source.now rows.now body.now
        out.old).answer)
        × (out.new ≡ (written ceiling «record» source.now rows.now body.now
        out.old).output) }
{
    let mut slots = [0; 16];
    let outline = slots_of(record, &mut slots);
    write_values(outline, &slots, source, rows, body, out, ceiling)
}

// The same of the record that a kind, an id, a version, slots and a row count make, without making it.
pub fn write_slots(
    kind: Kind,
    id: u32,
    header_version: u8,
    slots: [u32; 16],
    count: u32,
    source: &[u8],
    rows: &[u32],
    body: &[u8],
    out: &mut [u8],
    ceiling: u32,
) -> Result<usize, Refusal>
    ensures { (in_numbers result ≡ (written ceiling (record_of kind id header_version slots count) source.now rows.now
        body.now out.old).answer)
        × (out.new ≡ (written ceiling (record_of kind id header_version slots count) source.now rows.now
        body.now out.old).output) }
{
    let outline = Outline {
        kind,
        id,
        header_version,
        rows: count,
    };
    write_values(outline, &slots, source, rows, body, out, ceiling)
}
