// The fields of the fixed header, and the rule of each.
ghost use Rattle.std.specs.Prelude.{◌≡◌, ◌+◌, ◌%◌, ◌^◌, ◌≤◌, ◌<◌, ◌&&◌, eqb, length};
ghost use Rattle.fixed_header.specs.Header.{be32_of, total_of, header_size_of, header_in};
ghost use Rattle.refusals.specs.Refusals.{code_of};
ghost use Rattle.fixed_header.specs.Header.{magic_ok, stream_type_ok, total_ok, header_size_ok, type_fault, size_fault, fault_of};

use crate::{FixedHeader, FrameType, HEADER};
use refusals::Refusal;

// The four bytes at a place, as a big-endian number.
fn be32(h: &[u8], at: usize) -> u32
    requires { at + 4 ≤ length h.now }
    ensures { result ≡ be32_of h.now at }
{
    u32::from_be_bytes([h[at], h[at + 1], h[at + 2], h[at + 3]])
}

pub(crate) fn total(h: &[u8]) -> usize
    requires { 16 ≤ length h.now }
    ensures { result ≡ total_of h.now }
{
    be32(h, 4) as usize
}

fn header_size(h: &[u8]) -> usize
    requires { 16 ≤ length h.now }
    ensures { (result ≡ header_size_of h.now) × (result < 65536) }
{
    u16::from_be_bytes([h[8], h[9]]) as usize
}

// Both bytes in one comparison.
fn magic_ok(first: u8, second: u8) -> bool
    ensures { result ≡ magic_ok first second }
{
    u16::from_be_bytes([first, second]) == 0x0930
}

// The stream type of a stream frame.
fn stream_type_ok(stream_type: u8) -> bool
    ensures { result ≡ stream_type_ok 1 stream_type }
{
    1 <= stream_type && stream_type <= 4
}

// What a total leaves after the 16 bytes. One under 16 wraps to more than any ceiling leaves, so that one comparison looks at both ends of
// the rule.
fn content_size(total: u32) -> usize
    ensures { (result < 2 ^ 32) × ((result + 16) % 2 ^ 32 ≡ total) }
{
    total.wrapping_sub(16) as usize
}

fn total_ok(content: usize, ceiling: u32) -> bool
    requires { (16 ≤ ceiling) × (content < 2 ^ 32) }
    ensures { result ≡ total_ok ceiling ((content + 16) % 2 ^ 32) }
{
    content <= ceiling as usize - HEADER
}

fn header_size_ok(data_type: u8, content: usize, size: usize) -> bool
    ensures { result ≡ header_size_ok data_type (content + 16) size }
{
    let most = if data_type == 0 { content } else { 0 };
    size <= most
}

// 3, 4 or 5: the first rule of the magic and the types that is broken. In unary the stream type is ignored.
fn check_types(first: u8, second: u8, data_type: u8, stream_type: u8) -> Result<(), Refusal>
    ensures { code_of result ≡ type_fault first second data_type stream_type 0 }
{
    if !magic_ok(first, second) {
        return Err(Refusal::BadMagic);
    }
    if data_type == 0 {
        return Ok(());
    }
    if 1 < data_type {
        return Err(Refusal::BadDataType);
    }
    if !stream_type_ok(stream_type) {
        return Err(Refusal::BadStreamType);
    }
    Ok(())
}

// 6 or 7: the first rule of the sizes that is broken.
fn check_sizes(data_type: u8, total: u32, size: usize, ceiling: u32) -> Result<(), Refusal>
    requires { 16 ≤ ceiling }
    ensures { code_of result ≡ size_fault ceiling data_type total size }
{
    let content = content_size(total);
    if !total_ok(content, ceiling) {
        return Err(Refusal::BadTotal);
    }
    if !header_size_ok(data_type, content, size) {
        return Err(Refusal::BadHeaderSize);
    }
    Ok(())
}

// Refuses 16 bytes for the first rule that they break.
pub(crate) fn check(h: &[u8], ceiling: u32) -> Result<(), Refusal>
    requires { (16 ≤ length h.now) × (16 ≤ ceiling) }
    ensures { code_of result ≡ fault_of ceiling h.now }
{
    check_types(h[0], h[1], h[2], h[3])?;
    check_sizes(h[2], be32(h, 4), header_size(h), ceiling)
}

// Whether both rules of the sizes are kept: a total that holds the header message is no less than 16.
fn sizes_ok(data_type: u8, total: usize, size: usize, ceiling: u32) -> bool
    requires { size < 65536 }
    ensures { result ≡ total_ok ceiling total && header_size_ok data_type total size }
{
    if (ceiling as usize) < total {
        return false;
    }
    if total < HEADER + size {
        return false;
    }
    if data_type == 0 {
        return true;
    }
    size == 0
}

// Whether 16 bytes break no rule, without naming one.
pub(crate) fn good(h: &[u8], ceiling: u32) -> bool
    requires { 16 ≤ length h.now }
    ensures { result ≡ eqb (fault_of ceiling h.now) 0 }
{
    if check_types(h[0], h[1], h[2], h[3]).is_err() {
        return false;
    }
    sizes_ok(h[2], total(h), header_size(h), ceiling)
}

// The version is byte 15 as it is: of a byte the definition's remainder is the byte.
fn version(byte: u8) -> u8
    ensures { result ≡ byte % 256 }
{
    byte
}

// What 16 bytes say.
pub(crate) fn header_in(h: &[u8]) -> FixedHeader
    requires { 16 ≤ length h.now }
    ensures { result ≡ header_in h.now }
{
    FixedHeader {
        frame_type: FrameType::of_types(h[2], h[3]),
        total: total(h),
        header_size: header_size(h),
        id: be32(h, 10),
        version: version(h[14]),
    }
}
