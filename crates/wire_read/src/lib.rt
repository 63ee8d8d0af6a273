// Protobuf fields: varints, tags, lengths, fields that are read and skipped. Document 01, "Fields
// (Protobuf encoding)".
//
// A reader is given a slice `s` and the places `at` and `end` in it. Its part is the bytes of `s`
// from `at` up to `end` that exist: none where `at` is past the end of the slice or not before `end`,
// and up to the slice's end where `end` is past it. It reads nothing else. Every function takes all
// arguments and ends.
#![tactic(auto)]

mod contents;
mod parts;
mod skipping;
mod wire_types;

ghost use Rattle.std.specs.Prelude.{◌≡◌};
ghost use Rattle.refusals.specs.Refusals.{in_numbers};
ghost use Rattle.wire_read.specs.Part.{part};
ghost use Rattle.wire_read.specs.Varint.{got, varint, low_u32, low_i32};
ghost use Rattle.wire_read.specs.Tags.{split, tag, length_prefix};
ghost use Rattle.wire_read.specs.Skipping.{skip_value, skip_group, skip_field};
ghost use Rattle.wire_read.specs.Fields.{next_field};
ghost use Rattle.wire_read.specs.Placed.{varint_at, tag_at, length_at, skip_at, field_at};

use contents::content_of;
use parts::part_end;
use refusals::Refusal;
use skipping::{skip_bytes, skip_fixed, skip_varint};
use wire_types::WireType;

// A varint's value, and the place after it.
#[derive(Clone, Copy)]
pub struct Varint {
    pub value: u64,
    pub next: usize,
}

// A tag's field number and its wire type, and the place after it.
#[derive(Clone, Copy)]
pub struct Tag {
    pub number: u32,
    pub wire_type: u32,
    pub next: usize,
}

// Where the bytes that a length announces start, and how many they are.
#[derive(Clone, Copy)]
pub struct Length {
    pub start: usize,
    pub size: usize,
}

// A field: its number first, then its value and the place after it. Of bytes the start and the length:
// the place after them is their sum. A group is only skipped.
#[derive(Clone, Copy)]
pub enum Field {
    Varint(u32, u64, usize),
    Fixed64(u32, u64, usize),
    Bytes(u32, usize, usize),
    Group(u32, usize),
    Fixed32(u32, u32, usize),
}

// The varint at the start of the part.
// No iterator here: document 01 fixes the loop that leaves by break.
pub fn read_varint(s: &[u8], at: usize, end: usize) -> Result<Varint, Refusal>
    ensures { in_numbers result ≡ varint_at at (varint (part s.now at end)) }
{
    let stop = part_end(s, end);
    let mut value: u64 = 0;
    let mut shift: u32 = 0;
    let mut i = at;
    loop {
        if i >= stop {
            break Err(Refusal::BadVarint);
        }
        let b = s[i] as u64;
        i += 1;
        if shift == 63 && b > 1 {
            break Err(Refusal::BadVarint);
        }
        value = value | ((b & 127) << shift);
        if b < 128 {
            break Ok(Varint { value, next: i });
        }
        shift += 7;
    }
}

// The tag at the start of the part; none where the part is at its end.
#[inline(always)]
pub fn read_tag(s: &[u8], at: usize, end: usize) -> Result<Option<Tag>, Refusal>
    ensures { in_numbers result ≡ tag_at at (tag (part s.now at end)) }
{
    if part_end(s, end) <= at {
        return Ok(None);
    }
    let v = read_varint(s, at, end)?;
    split_tag(v)
}

// The tag that this varint is.
#[inline(always)]
fn split_tag(v: Varint) -> Result<Option<Tag>, Refusal>
    ensures { in_numbers result ≡ tag_at v.next (split (got v.value 0)) }
{
    if v.value <= 4294967295 {
        let number = v.value >> 3;
        let wire_type = v.value & 7;
        if 0 < number && wire_type < 6 {
            return Ok(Some(Tag {
                number: number as u32,
                wire_type: wire_type as u32,
                next: v.next,
            }));
        }
    }
    Err(Refusal::BadTag)
}

// The length at the start of the part, and the bytes after it.
pub fn read_length(s: &[u8], at: usize, end: usize) -> Result<Length, Refusal>
    ensures { in_numbers result ≡ length_at at (length_prefix (part s.now at end)) }
{
    let v = read_varint(s, at, end)?;
    let start = v.next;
    let size = v.value as usize;
    let left = part_end(s, end) - start;
    if left < size {
        return Err(Refusal::PastEnd);
    }
    Ok(Length { start, size })
}

// "nested to 32"
const MAX_DEPTH: u32 = 32;

// Skips the value at the start of the part, which comes after a tag of this field number and wire
// type, and returns the place after it. `depth` more groups may be opened, and at most 32. A wire type
// that has no value is a bad tag: 4, a stray group end, and all from 6.
// The wire type is a number, since every number has an answer.
pub fn skip_field(
    s: &[u8],
    at: usize,
    end: usize,
    number: u32,
    wire_type: u32,
    depth: u32,
) -> Result<usize, Refusal>
    ensures { in_numbers result ≡ skip_at at (skip_field number wire_type depth (part s.now at end)) }
{
    skip_value(s, at, end, number, wire_type, depth.min(MAX_DEPTH))
}

// The same with any depth. The calls nest once for each open group: every caller passes at most 32.
#[cycle(skipping_groups)]
fn skip_value(
    s: &[u8],
    at: usize,
    end: usize,
    number: u32,
    wire_type: u32,
    depth: u32,
) -> Result<usize, Refusal>
    ensures { in_numbers result ≡ skip_at at (skip_value number wire_type depth (part s.now at end)) }
{
    match WireType::from(wire_type) {
        WireType::Varint => skip_varint(s, at, end),
        WireType::I64 => skip_fixed(s, at, end, 8),
        WireType::Len => skip_bytes(s, at, end),
        WireType::SGroup => {
            if depth == 0 {
                return Err(Refusal::TooDeep);
            }
            skip_group(s, at, end, number, depth - 1)
        }
        WireType::I32 => skip_fixed(s, at, end, 4),
        WireType::EGroup | WireType::Reserved => Err(Refusal::BadTag),
    }
}

// Skips what is left of an opened group of this field number, its end included.
#[cycle(skipping_groups)]
fn skip_group(s: &[u8], at: usize, end: usize, number: u32, depth: u32) -> Result<usize, Refusal>
    ensures { in_numbers result ≡ skip_at at (skip_group number depth (part s.now at end)) }
{
    let mut i = at;
    while let Some(tag) = read_tag(s, i, end)? {
        if tag.wire_type == 4 {
            if tag.number == number {
                return Ok(tag.next);
            }
            return Err(Refusal::BadTag);
        }
        i = skip_value(s, tag.next, end, tag.number, tag.wire_type, depth)?;
    }
    Err(Refusal::PastEnd)
}

// The field at the start of the part; none where the part is at its end. A group is skipped, with at
// most 32 groups open.
#[inline(always)]
pub fn next_field(s: &[u8], at: usize, end: usize) -> Result<Option<Field>, Refusal>
    ensures { in_numbers result ≡ field_at at (next_field (part s.now at end)) }
{
    match read_tag(s, at, end)? {
        None => Ok(None),
        Some(tag) => content_of(s, tag, end),
    }
}

// The value of a uint32 field: "uint32 takes the low 32 bits".
// No From: of a number of 64 bits std has none that leaves bits out.
pub fn low_u32(v: u64) -> u32
    ensures { result ≡ low_u32 v }
{
    (v & 4294967295) as u32
}

// The value of an int32 field: "int32 the same as two's complement".
pub fn low_i32(v: u64) -> i32
    ensures { result ≡ low_i32 v }
{
    low_u32(v).cast_signed()
}
