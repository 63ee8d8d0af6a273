// One field, stored in an output with room for it. A tag has one byte. Each function returns the place after what it stored.
ghost use Rattle.std.specs.Prelude.{◌≡◌, [], ◌∷◌, ◌+◌, ◌*◌, ◌≤◌, ◌<◌, cond, eqb, length};
ghost use Rattle.wire_write.specs.Writing.{put_varint, put_bytes};
ghost use Rattle.schema.specs.Schema.{uint32, int32};
ghost use Rattle.decoder.specs.Fields.{part_of};
ghost use Rattle.writer_checks.specs.Fours.{row_of};
ghost use Rattle.writer.specs.Encoding.{put_number, put_some, put_entry, put_rows};
ghost use Rattle.writer.specs.Straight.{fours, RowIn, Did};

use crate::message::Message;
use crate::sizes::{entry_size, extended};

// `wire_write` keeps its own: it requires room, as no public function may. What is left of the value ends the loop.
fn put_varint(v: u64, out: &mut [u8], at: usize) -> usize
    requires { at + length (put_varint v) ≤ length out.old }
    ensures { Did (put_varint v) out.old at result out.new }
{
    let mut rest = v;
    let mut i = at;
    while 128 <= rest {
        out[i] = ((rest & 127) | 128) as u8;
        rest = rest >> 7;
        i += 1;
    }
    out[i] = rest as u8;
    i + 1
}

// A tag and a varint: the head of every field.
pub(crate) fn put_head(tag: u8, v: u64, out: &mut [u8], at: usize) -> usize
    requires { at + 1 + length (put_varint v) ≤ length out.old }
    ensures { Did (tag ∷ put_varint v) out.old at result out.new }
{
    out[at] = tag;
    put_varint(v, out, at + 1)
}

// A varint, left out where it is 0.
fn put_wide(number: u8, v: u64, out: &mut [u8], at: usize) -> usize
    requires { (number < 16) × (at + length (cond (eqb v 0) [] (number * 8 ∷ put_varint v)) ≤ length out.old) }
    ensures { Did (cond (eqb v 0) [] (number * 8 ∷ put_varint v)) out.old at result out.new }
{
    if v == 0 {
        return at;
    }
    put_head(number * 8, v, out, at)
}

// A uint32.
pub(crate) fn put_number(number: u8, v: u32, out: &mut [u8], at: usize) -> usize
    requires { (number < 16) × (at + length (put_number uint32 number v) ≤ length out.old) }
    ensures { Did (put_number uint32 number v) out.old at result out.new }
{
    put_wide(number, v as u64, out, at)
}

// An int32.
pub(crate) fn put_signed(number: u8, bits: u32, out: &mut [u8], at: usize) -> usize
    requires { (number < 16) × (at + length (put_number int32 number bits) ≤ length out.old) }
    ensures { Did (put_number int32 number bits) out.old at result out.new }
{
    put_wide(number, extended(bits), out, at)
}

// `size` bytes of the source from `start`, as they are.
fn put_raw(start: u32, size: u32, source: &[u8], out: &mut [u8], at: usize) -> usize
    requires { (start + size ≤ length source.now) × (at + size ≤ length out.old) }
    ensures { Did (part_of source.now start size) out.old at result out.new }
{
    let first = start as usize;
    let end = first + (size as usize);
    let _ = wire_write::write_raw(&source[first..end], out, at);
    at + (size as usize)
}

// A field of bytes.
fn put_bytes(number: u8, start: u32, size: u32, source: &[u8], out: &mut [u8], at: usize) -> usize
    requires { (number < 16) × (start + size ≤ length source.now)
        × (at + length (put_bytes number (part_of source.now start size)) ≤ length out.old) }
    ensures { Did (put_bytes number (part_of source.now start size)) out.old at result out.new }
{
    let next = put_head(number * 8 + 2, size as u64, out, at);
    put_raw(start, size, source, out, next)
}

// The same, left out where it is empty.
pub(crate) fn put_some(
    number: u8,
    start: u32,
    size: u32,
    source: &[u8],
    out: &mut [u8],
    at: usize,
) -> usize
    requires { (number < 16) × (start + size ≤ length source.now)
        × (at + length (put_some number (part_of source.now start size)) ≤ length out.old) }
    ensures { Did (put_some number (part_of source.now start size)) out.old at result out.new }
{
    if size == 0 {
        return at;
    }
    put_bytes(number, start, size, source, out, at)
}

// A map entry: key and value always both.
fn put_entry(number: u8, row: &[u32; 4], source: &[u8], out: &mut [u8], at: usize) -> usize
    requires { (number < 16) × RowIn (length source.now) (row_of row.now)
        × (at + length (put_bytes number (put_entry source.now (row_of row.now))) ≤ length out.old) }
    ensures { Did (put_bytes number (put_entry source.now (row_of row.now))) out.old at result out.new }
{
    let [key, key_size, value, value_size] = *row;
    let size = entry_size(key_size, value_size);
    let inside = put_head(number * 8 + 2, size as u64, out, at);
    let second = put_bytes(1, key, key_size, source, out, inside);
    put_bytes(2, value, value_size, source, out, second)
}

impl<'a> Message<'a> {
    // The rows of the map.
    pub(crate) fn put_rows(&self, number: u8, out: &mut [u8], at: usize) -> usize
        requires { (number < 16)
            × (at + length (put_rows self.now.source.now number (fours self.now.rows.now)) ≤ length out.old) }
        ensures { Did (put_rows self.now.source.now number (fours self.now.rows.now)) out.old at result out.new }
    {
        let mut next = at;
        for row in self.rows {
            next = put_entry(number, row, self.source, out, next);
        }
        next
    }

    // The same, with no call where there are none.
    pub(crate) fn put_map(&self, number: u8, out: &mut [u8], at: usize) -> usize
        requires { (number < 16)
            × (at + length (put_rows self.now.source.now number (fours self.now.rows.now)) ≤ length out.old) }
        ensures { Did (put_rows self.now.source.now number (fours self.now.rows.now)) out.old at result out.new }
    {
        if self.rows.is_empty() {
            return at;
        }
        self.put_rows(number, out, at)
    }
}
