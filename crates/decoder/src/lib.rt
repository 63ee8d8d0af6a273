// The decoder of the tRPC messages: the fields of a part of a frame go to slots, and its map to lent
// rows, by a schema number.
#![tactic(auto)]

mod entry;
mod messages;
mod rows;
mod walking;

ghost use Rattle.std.specs.Prelude.{◌≡◌};
ghost use Rattle.refusals.specs.Refusals.{in_numbers};
ghost use Rattle.decoder.specs.Rows.{rows_lent, rows_cleared};
ghost use Rattle.decoder.specs.Fields.{part_of, same_bytes, key_place};
ghost use Rattle.decoder.specs.Decoding.{decoded};

use fixed_header::MAX_FRAME;
use messages::decode_part;
use refusals::Refusal;
use rows::clear;

// The numbers that the rows may take, four to a row.
pub const ROW_NUMBERS: usize = 256;

// The values of a message's fields by its schema's order, how many rows there are, and how many map
// entries were seen, repeats counted.
// An array, since a slot is named by its number (`field_target`).
#[derive(Clone, Copy)]
pub struct Slots {
    pub values: [u32; 16],
    pub rows: usize,
    pub entries: u32,
}

// Reads the bytes of the frame from `at` up to `end`, as far as they exist, as the message of the
// schema number. The map rows go to the first 256 of the lent numbers.
// The schema number may be any: one that names no message is of one without fields (`schema_at`).
pub fn decode(
    frame: &[u8],
    at: usize,
    end: usize,
    schema: u32,
    rows: &mut [u32],
) -> Result<Slots, Refusal>
    ensures value { in_numbers result ≡ (decoded frame.now at end schema rows.old).answer }
    ensures rows_after { rows.new ≡ (decoded frame.now at end schema rows.old).rows }
{
    if rows.len() < ROW_NUMBERS {
        return Err(Refusal::RowsShort);
    }
    if MAX_FRAME < frame.len() {
        return Err(Refusal::WrongFrame);
    }
    let stop = end.min(frame.len());
    decode_part(frame, at.min(stop), stop, schema, rows)
}

// Leaves no rows: the first 256 numbers are 0 then. A shorter slice is left as it is.
pub fn clear_rows(rows: &mut [u32])
    ensures { rows.new ≡ rows_cleared rows.old }
{
    if ROW_NUMBERS <= rows.len() {
        clear(rows);
    }
}

// The bytes that a start and a length name, as far as there are any.
fn named(bytes: &[u8], start: usize, size: usize) -> &[u8]
    ensures { result.now ≡ part_of bytes.now start size }
{
    let n = bytes.len();
    let from = start.min(n);
    let end = from + size.min(n - from);
    &bytes[from..end]
}

// Whether the bytes that two starts and lengths name are the same, each as far as there are any.
pub fn same_key(bytes: &[u8], a: usize, a_size: usize, b: usize, b_size: usize) -> bool
    ensures { result ≡ same_bytes (part_of bytes.now a a_size) (part_of bytes.now b b_size) }
{
    check::same(named(bytes, a, a_size), named(bytes, b, b_size))
}

// The first of `count` rows, as far as they are lent, that has the key that a start and a length name; or how many rows
// these are.
pub fn find_key(bytes: &[u8], rows: &[u32], count: usize, key: usize, key_size: usize) -> usize
    ensures { result ≡ key_place bytes.now (part_of bytes.now key key_size) (rows_lent count rows.now) }
{
    let (rows, _) = rows.as_chunks::<4>();
    let rows = &rows[..count.min(rows.len())];
    rows.iter()
        .position(|row| same_key(bytes, row[0] as usize, row[1] as usize, key, key_size))
        .unwrap_or(rows.len())
}
