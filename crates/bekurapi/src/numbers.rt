// A record as 25 numbers.
ghost use Rattle.std.specs.Prelude.{◌≡◌, ◌++◌, take, drop, ◌%◌};
ghost use Rattle.refusals.specs.Refusals.{in_numbers};
ghost use Rattle.message.specs.Spans.{spans_given};
ghost use Rattle.bekurapi.specs.Numbers.{answer_id, answer_version, answer_rows, answer_slots, numbers_of, fields_from};

use message::Located;
use records::{Outline, Record, slots_of};
use refusals::Refusal;
use schema::Kind;

// Where its fields start, and where the last number is.
const FIELDS: usize = 8;

const LAST: usize = 24;

// The numbers before the fields, the fields, and the last number.
fn with_fields(numbers: [u32; 25], fields: [u32; 16]) -> [u32; 25]
    ensures { result ≡ take 8 numbers ++ fields ++ drop 24 numbers }
{
    let mut all = numbers;
    all[FIELDS..LAST].copy_from_slice(&fields);
    all
}

// What the record says that was read, its fields in `fields`; of a refusal all is zero.
// No Default: none of the kinds is that of no record.
fn slots_in(answer: Result<Record, Refusal>, fields: &mut [u32; 16]) -> Outline
    ensures { (result.id ≡ answer_id (in_numbers answer)) × (result.header_version ≡ answer_version (in_numbers answer))
        × (result.rows ≡ answer_rows (in_numbers answer)) × (fields.new ≡ answer_slots (in_numbers answer)) }
{
    match answer {
        Ok(record) => slots_of(record, fields),
        Err(_) => {
            *fields = [0; 16];
            Outline {
                kind: Kind::Data,
                id: 0,
                header_version: 0,
                rows: 0,
            }
        }
    }
}

// The numbers of a record and of its frame's parts.
// No From: neither type is of this crate.
pub(crate) fn numbers_of(reading: Located) -> [u32; 25]
    ensures { result ≡ numbers_of (spans_given reading) }
{
    let mut fields = [0; 16];
    let outline = slots_in(reading.answer, &mut fields);
    let header = reading.header;
    let body = reading.body;
    let attachment = reading.attachment;
    let mut numbers = [0; 25];
    numbers[0] = outline.id;
    numbers[1] = outline.rows;
    numbers[2] = header.start;
    numbers[3] = header.len;
    numbers[4] = body.start;
    numbers[5] = body.len;
    numbers[6] = attachment.start;
    numbers[7] = attachment.len;
    numbers[LAST] = outline.header_version as u32;
    with_fields(numbers, fields)
}

// The fields among a record's numbers.
pub(crate) fn fields_of(numbers: [u32; 25]) -> [u32; 16]
    ensures { result ≡ fields_from numbers }
{
    let mut fields = [0; 16];
    fields.copy_from_slice(&numbers[FIELDS..LAST]);
    fields
}

// The version in the last number: its low byte.
// No TryFrom: the three bytes over it are not looked at (`c_read_back`).
pub(crate) fn version_of(number: u32) -> u8
    ensures { result ≡ number % 256 }
{
    (number % 256) as u8
}
