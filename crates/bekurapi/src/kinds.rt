// The reader and the writer of any kind.
// C's interface: twenty-five numbers for a record, and a number for each refusal.
ghost use Rattle.bekurapi.specs.Kinds.{ReadAs, WrittenAs};

use crate::answers::{encoded_size, error_of};
use crate::numbers::{fields_of, numbers_of, version_of};
use message::read_spans;
use schema::Kind;
use writer::write_slots;

pub(crate) fn read_as(
    kind: Kind,
    frame: &[u8],
    ceiling: u32,
    rows: &mut [u32],
    record: &mut [u32; 25],
) -> u32
    ensures { ReadAs ceiling kind frame.now rows.old result rows.new «record».new }
{
    let reading = read_spans(kind, frame, ceiling, rows);
    *record = numbers_of(reading);
    error_of(reading.answer)
}

pub(crate) fn write_as(
    kind: Kind,
    record: &[u32; 25],
    source: &[u8],
    rows: &[u32],
    body: &[u8],
    ceiling: u32,
    out: &mut [u8],
    size: &mut usize,
) -> u32
    ensures { WrittenAs ceiling kind «record».now source.now rows.now body.now
        out.old result size.new out.new }
{
    let numbers = *record;
    let fields = fields_of(numbers);
    let encoded = write_slots(
        kind,
        numbers[0],
        version_of(numbers[24]),
        fields,
        numbers[1],
        source,
        rows,
        body,
        out,
        ceiling,
    );
    *size = encoded_size(encoded);
    error_of(encoded)
}
