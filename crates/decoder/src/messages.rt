// One decoder for all messages: the fields of a part of the frame, by a schema number.
// A number and no enum, since `decode` takes every number.
ghost use Rattle.std.specs.Prelude.{◌≡◌, ◌+◌, ◌≤◌, ◌<◌, length};
ghost use Rattle.refusals.specs.Refusals.{in_numbers};
ghost use Rattle.fixed_header.specs.Header.{max_frame};
ghost use Rattle.wire_read.specs.Part.{part};
ghost use Rattle.schema.specs.Schema.{schema_at, part_schema, slot_at};
ghost use Rattle.decoder.specs.Rows.{row_numbers};
ghost use Rattle.schema.specs.Targets.{look, an_entry};
ghost use Rattle.decoder.specs.Fields.{read_message};
ghost use Rattle.decoder.specs.Decoding.{outcome};
ghost use Rattle.decoder.specs.DecoderState.{state_of, Ready, Tells, with_field_at, read_at, with_number, with_bytes};

use crate::Slots;
use crate::entry::read_entry;
use crate::rows::{clear, enter_row};
use crate::walking::{start_of, step_in};
use refusals::Refusal;
use schema::{Target, field_target, message_schema};
use wire_read::Field;

// The map entries that a message may have, repeats counted.
const MAX_ENTRIES: u32 = 64;
// "absent is 0 or empty"
const ABSENT: u32 = 0;

// The slots with the value of a varint field.
fn set_number(slots: Slots, schema: u32, number: u32, value: u64) -> Slots
    ensures { result ≡ with_number (look (part_schema schema) (slot_at schema) number) value slots }
{
    match field_target(schema, number) {
        Target::Number(slot) => {
            let mut next = slots;
            next.values[slot] = wire_read::low_u32(value);
            next
        }
        Target::Bytes(_) | Target::Entry | Target::Message(..) | Target::Unknown => slots,
    }
}

// The slots with the start and the length of bytes; an empty one is 0, 0.
fn set_bytes(slots: Slots, slot: usize, start: usize, size: usize) -> Slots
    requires { (slot + 1 < 16) × (start + size ≤ max_frame) }
    ensures { result ≡ with_bytes slot start size slots }
{
    let mut next = slots;
    next.values[slot] = start_of(start, size);
    next.values[slot + 1] = size as u32;
    next
}

// The map entry in the `size` bytes of the frame from `start`.
fn add_entry(
    frame: &[u8],
    start: usize,
    size: usize,
    slots: Slots,
    rows: &mut [u32],
) -> Result<Slots, Refusal>
    requires { (start + size ≤ length frame.now) × (length frame.now ≤ max_frame) × Ready slots rows.old }
    ensures { Tells (with_field_at frame.now start size (state_of slots rows.old) an_entry)
        result rows.new rows.old }
{
    if slots.entries >= MAX_ENTRIES {
        return Err(Refusal::TooManyEntries);
    }
    let new = read_entry(frame, start, start + size)?;
    let count = enter_row(frame, rows, slots.rows, new);
    let values = slots.values;
    Ok(Slots {
        values,
        rows: count,
        entries: slots.entries + 1,
    })
}

// The `size` bytes of the frame from `start`, as the field of this number.
#[cycle(read_fields_read_inside)]
fn read_inside(
    frame: &[u8],
    start: usize,
    size: usize,
    schema: u32,
    number: u32,
    slots: Slots,
    rows: &mut [u32],
) -> Result<Slots, Refusal>
    requires { (start + size ≤ length frame.now) × (length frame.now ≤ max_frame) × Ready slots rows.old }
    ensures { Tells
        (with_field_at frame.now start size (state_of slots rows.old) (look (part_schema schema) (slot_at schema) number))
        result rows.new rows.old }
{
    match field_target(schema, number) {
        Target::Bytes(slot) => Ok(set_bytes(slots, slot, start, size)),
        Target::Entry => add_entry(frame, start, size, slots, rows),
        Target::Message(slot, inner) => {
            let mut marked = slots;
            marked.values[slot] = 1;
            read_fields(frame, start, start + size, inner, marked, rows)
        }
        Target::Number(_) => Ok(slots),
        Target::Unknown => Ok(slots),
    }
}

// The fields of a part of the frame, from left to right.
#[cycle(read_fields_read_inside)]
fn read_fields(
    frame: &[u8],
    at: usize,
    end: usize,
    schema: u32,
    initial: Slots,
    rows: &mut [u32],
) -> Result<Slots, Refusal>
    requires { (at ≤ end) × (end ≤ length frame.now) × (length frame.now ≤ max_frame) × Ready initial rows.old }
    ensures { Tells (read_at frame.now schema at end (state_of initial rows.old))
        result rows.new rows.old }
{
    let mut slots = initial;
    let mut i = at;
    while let Some(step) = step_in(frame, i, end)? {
        match step.field {
            Field::Varint(number, value, _) => slots = set_number(slots, schema, number, value),
            Field::Bytes(number, start, size) => {
                slots = read_inside(frame, start, size, schema, number, slots, rows)?;
            }
            Field::Fixed64(..) | Field::Group(..) | Field::Fixed32(..) => {}
        }
        i = step.at;
    }
    Ok(slots)
}

// The message in the bytes of the frame from `at` to `end`. The rows are cleared first, and again
// where it is refused.
pub(crate) fn decode_part(
    frame: &[u8],
    at: usize,
    end: usize,
    schema: u32,
    rows: &mut [u32],
) -> Result<Slots, Refusal>
    requires { (at ≤ end) × (end ≤ length frame.now) × (length frame.now ≤ max_frame) × (row_numbers ≤ length rows.old) }
    ensures value { in_numbers result ≡ (outcome (read_message frame.now (schema_at schema) at (part frame.now at end))
        rows.old).answer }
    ensures rows_after { rows.new ≡ (outcome (read_message frame.now (schema_at schema) at (part frame.now at end))
        rows.old).rows }
{
    clear(rows);
    let blank = Slots {
        values: [ABSENT; 16],
        rows: 0,
        entries: 0,
    };
    let decoded = read_fields(frame, at, end, message_schema(schema), blank, rows);
    if decoded.is_err() {
        clear(rows);
    }
    decoded
}
