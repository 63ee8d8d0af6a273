// Protobuf fields written: shortest varints, tags, fields of bytes. Document 01, "Fields (Protobuf
// encoding)" and "varints shortest". What was written reads back by `wire_read` (proofs/ReadBack.antt).
//
// A writer is given an output and a place in it. It writes all of its bytes from there, and returns the
// place after them; or it refuses, 11 for a bad tag or 27 for an output that is shorter than what is to
// be written, and the output is untouched. Every function takes all arguments and ends.
#![tactic(auto)]

mod grounds;
mod storing;

ghost use Rattle.std.specs.Prelude.{◌≡◌, length};
ghost use Rattle.refusals.specs.Refusals.{in_numbers};
ghost use Rattle.copying.specs.Stored.{stored};
ghost use Rattle.wire_write.specs.Writing.{put_varint, put_tag, put_bytes, sign_extended, written_at, tag_stored, tag_written};

use copying::{copy_short_to, has_room};
use grounds::{first_ground, good_tag, has_room_for_both};
use refusals::Refusal;
use storing::put_varint;

// What an int32 is written as: "A negative int32 is written in ten bytes".
pub fn sign_extend(v: i32) -> u64
    ensures { result ≡ sign_extended v }
{
    (v as i64).cast_unsigned()
}

// How many bytes the shortest varint of `v` takes: 1 to 10.
pub fn varint_len(v: u64) -> usize
    ensures { result ≡ length (put_varint v) }
{
    let mut rest = v;
    let mut n: usize = 1;
    while 128 <= rest {
        rest >>= 7;
        n += 1;
    }
    n
}

// Writes `v` as its shortest varint from the place `at` of the output.
pub fn write_varint(v: u64, out: &mut [u8], at: usize) -> Result<usize, Refusal>
    ensures { (in_numbers result ≡ written_at out.old at (put_varint v))
        × (out.new ≡ stored out.old at (put_varint v)) }
{
    if has_room(out, at, varint_len(v)) {
        return Ok(put_varint(v, out, at));
    }
    Err(Refusal::OutputShort)
}

// Writes a tag. One that the reader would refuse is 11: "Field 0 and wire types 6, 7 are bad", and a
// number that no tag holds.
pub fn write_tag(number: u32, wire_type: u32, out: &mut [u8], at: usize) -> Result<usize, Refusal>
    ensures { (in_numbers result ≡ tag_written number wire_type out.old at (put_tag number wire_type))
        × (out.new ≡ tag_stored number wire_type out.old at (put_tag number wire_type)) }
{
    let tag = (number as u64) * 8 + (wire_type as u64);
    let room = has_room(out, at, varint_len(tag));
    first_ground(good_tag(number, wire_type), room)?;
    Ok(put_varint(tag, out, at))
}

// Writes bytes as they are, with no tag and no length.
pub fn write_raw(content: &[u8], out: &mut [u8], at: usize) -> Result<usize, Refusal>
    ensures { (in_numbers result ≡ written_at out.old at content.now)
        × (out.new ≡ stored out.old at content.now) }
{
    if copy_short_to(content, out, at) {
        return Ok(at + content.len());
    }
    Err(Refusal::OutputShort)
}

// Writes a field of bytes: its tag, the length of its content, the content. A number that no tag
// holds is 11.
pub fn write_bytes(number: u32, content: &[u8], out: &mut [u8], at: usize) -> Result<usize, Refusal>
    ensures { (in_numbers result ≡ tag_written number 2 out.old at (put_bytes number content.now))
        × (out.new ≡ tag_stored number 2 out.old at (put_bytes number content.now)) }
{
    let tag = (number as u64) * 8 + 2;
    let size = content.len() as u64;
    let head = varint_len(tag) + varint_len(size);
    let room = has_room_for_both(out, at, head, content.len());
    first_ground(good_tag(number, 2), room)?;
    let behind_tag = put_varint(tag, out, at);
    let start = put_varint(size, out, behind_tag);
    write_raw(content, out, start)
}
