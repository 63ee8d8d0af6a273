// How many bytes a field takes, by the lengths alone. A tag has one byte.
// Each size has a bound of its own, so that no sum overflows.
ghost use Rattle.std.specs.Prelude.{◌≡◌, ◌+◌, ◌≤◌, cond, eqb, length};
ghost use Rattle.wire_write.specs.Writing.{put_varint};
ghost use Rattle.writer_checks.specs.Fours.{row_of};
ghost use Rattle.writer.specs.Straight.{fours, most_row, most_field, most_message};
ghost use Rattle.schema.specs.Schema.{uint32, int32, request, response, close, feedback, request_meta, response_meta, init};
ghost use Rattle.schema.specs.Kinds.{schema_of};
ghost use Rattle.writer.specs.Encoding.{wide};
ghost use Rattle.writer.specs.Straight.{tagged, number_size, size_if, rows_sum, row_size, size_by, first_size, names_size, last_size};
ghost use Rattle.writer.specs.Straight.{status_size, content_size, stream_size};

use crate::message::Message;
use schema::Kind;

// The length of a varint: nearly always 1 or 2.
fn length_of(v: u64) -> usize
    ensures { (result ≡ length (put_varint v)) × (result ≤ 10) }
{
    if v < 128 {
        return 1;
    }
    if v < 16384 {
        return 2;
    }
    wire_write::varint_len(v)
}

// What an int32 is written as, with no i32 on the way: its two's complement in 64 bits.
pub(crate) fn extended(v: u32) -> u64
    ensures { (result ≡ wide int32 v) × (eqb result 0 ≡ eqb v 0) }
{
    if v < 2147483648 {
        return v as u64;
    }
    (v as u64) + 18446744069414584320
}

// A field with `size` bytes after its length.
fn tagged(size: usize) -> usize
    requires { size ≤ most_message }
    ensures { (result ≡ tagged size) × (result ≤ size + 11) }
{
    1 + length_of(size as u64) + size
}

// The same, left out where the mark is 0.
fn size_if(mark: u32, size: usize) -> usize
    requires { size ≤ most_message }
    ensures { (result ≡ size_if mark size) × (result ≤ size + 11) }
{
    if mark == 0 { 0 } else { tagged(size) }
}

// A field of bytes, left out where it is empty.
fn some_size(size: u32) -> usize
    ensures { (result ≡ size_if size size) × (result ≤ 4294967306) }
{
    size_if(size, size as usize)
}

// A varint, left out where it is 0.
fn varint_size(v: u64) -> usize
    ensures { (result ≡ cond (eqb v 0) 0 (1 + length (put_varint v))) × (result ≤ 11) }
{
    if v == 0 { 0 } else { 1 + length_of(v) }
}

// A uint32.
fn number_size(v: u32) -> usize
    ensures { (result ≡ number_size uint32 v) × (result ≤ 11) }
{
    varint_size(v as u64)
}

// An int32.
fn signed_size(v: u32) -> usize
    ensures { (result ≡ number_size int32 v) × (result ≤ 11) }
{
    varint_size(extended(v))
}

// The inside of a map entry.
pub(crate) fn entry_size(key_size: u32, value_size: u32) -> usize
    ensures { (result ≡ tagged key_size + tagged value_size) × (result + 20 ≤ most_row) }
{
    tagged(key_size as usize) + tagged(value_size as usize)
}

// A row of the map.
fn row_size(row: &[u32; 4]) -> usize
    ensures { (result ≡ row_size (row_of row.now)) × (result ≤ most_row) }
{
    let [_, key_size, _, value_size] = *row;
    tagged(entry_size(key_size, value_size))
}

fn rows_size(m: &Message) -> usize
    ensures { (result ≡ rows_sum row_size (fours m.now.rows.now)) × (result ≤ most_field) }
{
    let mut size = 0;
    for row in m.rows {
        size += row_size(row);
    }
    size
}

// ---- the kinds

fn first_size(n: &[u32; 16]) -> usize
    ensures { (result ≡ first_size n.now) × (result ≤ 44) }
{
    number_size(n[0]) + number_size(n[1]) + number_size(n[2]) + number_size(n[3])
}

fn names_size(n: &[u32; 16]) -> usize
    ensures { (result ≡ names_size n.now) × (result ≤ most_row) }
{
    some_size(n[5]) + some_size(n[7]) + some_size(n[9])
}

fn last_size(n: &[u32; 16]) -> usize
    ensures { (result ≡ last_size n.now) × (result ≤ 33) }
{
    number_size(n[11]) + number_size(n[12]) + number_size(n[13])
}

fn request_size(m: &Message) -> usize
    ensures { (result ≡ size_by (fours m.now.rows.now) request 0 m.now.slots.now) × (result ≤ most_message) }
{
    let n = m.slots;
    first_size(n) + names_size(n) + number_size(n[10]) + rows_size(m) + last_size(n)
}

fn status_size(n: &[u32; 16]) -> usize
    ensures { (result ≡ status_size n.now) × (result ≤ 55) }
{
    number_size(n[0])
        + number_size(n[1])
        + number_size(n[2])
        + signed_size(n[3])
        + signed_size(n[4])
}

fn content_size(n: &[u32; 16]) -> usize
    ensures { (result ≡ content_size n.now) × (result ≤ 33) }
{
    number_size(n[8]) + number_size(n[9]) + number_size(n[10])
}

fn response_size(m: &Message) -> usize
    ensures { (result ≡ size_by (fours m.now.rows.now) response 0 m.now.slots.now) × (result ≤ most_message) }
{
    let n = m.slots;
    status_size(n) + some_size(n[6]) + number_size(n[7]) + rows_size(m) + content_size(n)
}

fn close_size(m: &Message) -> usize
    ensures { (result ≡ size_by (fours m.now.rows.now) close 0 m.now.slots.now) × (result ≤ most_message) }
{
    let n = m.slots;
    signed_size(n[0])
        + signed_size(n[1])
        + some_size(n[3])
        + number_size(n[4])
        + rows_size(m)
        + signed_size(n[5])
}

// The inside of the two parts of Init.
pub(crate) fn request_meta_size(m: &Message) -> usize
    ensures { (result ≡ size_by (fours m.now.rows.now) request_meta 1 m.now.slots.now) × (result ≤ most_field + most_row) }
{
    let n = m.slots;
    some_size(n[2]) + some_size(n[4]) + some_size(n[6]) + number_size(n[7]) + rows_size(m)
}

pub(crate) fn response_meta_size(m: &Message) -> usize
    ensures { (result ≡ size_by (fours m.now.rows.now) response_meta 9 m.now.slots.now) × (result ≤ most_row) }
{
    let n = m.slots;
    signed_size(n[9]) + some_size(n[11])
}

fn stream_size(n: &[u32; 16]) -> usize
    ensures { (result ≡ stream_size n.now) × (result ≤ 33) }
{
    number_size(n[12]) + number_size(n[13]) + number_size(n[14])
}

fn init_size(m: &Message) -> usize
    ensures { (result ≡ size_by (fours m.now.rows.now) init 0 m.now.slots.now) × (result ≤ most_message) }
{
    let n = m.slots;
    size_if(n[0], request_meta_size(m)) + size_if(n[8], response_meta_size(m)) + stream_size(n)
}

impl<'a> Message<'a> {
    // The message.
    pub(crate) fn size(&self) -> usize
        ensures { (result ≡ size_by (fours self.now.rows.now) (schema_of self.now.kind) 0 self.now.slots.now) × (result ≤ most_message) }
    {
        match self.kind {
            Kind::Request => request_size(self),
            Kind::Response => response_size(self),
            Kind::Init => init_size(self),
            Kind::Data => 0,
            Kind::Feedback => number_size(self.slots[0]),
            Kind::Close => close_size(self),
        }
    }
}
