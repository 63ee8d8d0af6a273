// The fixed header of a tRPC frame, its first 16 bytes, both ways: checked, read and written.
//
// No function here has a `requires`: each takes every argument.
#![tactic(auto)]

mod header;
mod put;

ghost use Rattle.std.specs.Prelude.{◌≡◌, eqb};
ghost use Rattle.fixed_header.specs.Header.{ceiling_ok, header_error, declared_size, parsed, type_of};
ghost use Rattle.fixed_header.specs.Put.{header_put, data_type_of, stream_type_of};
ghost use Rattle.refusals.specs.Refusals.{code_of, in_numbers};

use refusals::Refusal;

// The size of the fixed header.
pub const HEADER: usize = 16;

// The largest frame, its fixed header included.
pub const MAX_FRAME: usize = 65536;

// What the data type and the stream type say of a frame.
#[derive(Clone, Copy)]
pub enum FrameType {
    Unary,
    Init,
    Data,
    Feedback,
    Close,
}

impl FrameType {
    // In unary the stream type is ignored. One that is none of the four is read as that of a Close.
    pub(crate) fn of_types(data_type: u8, stream_type: u8) -> FrameType
        ensures { result ≡ type_of data_type stream_type }
    {
        match (data_type, stream_type) {
            (0, _) => FrameType::Unary,
            (_, 1) => FrameType::Init,
            (_, 2) => FrameType::Data,
            (_, 3) => FrameType::Feedback,
            _ => FrameType::Close,
        }
    }

    // 0 unary, 1 stream.
    pub(crate) fn data_type(self) -> u8
        ensures { result ≡ data_type_of self }
    {
        match self {
            FrameType::Unary => 0,
            _ => 1,
        }
    }

    // 1 Init, 2 Data, 3 Feedback, 4 Close; 0 for unary.
    pub fn stream_type(self) -> u8
        ensures { result ≡ stream_type_of self }
    {
        self as u8
    }
}

#[derive(Clone, Copy)]
pub struct FixedHeader {
    pub frame_type: FrameType,
    pub total: usize,
    pub header_size: usize,
    pub id: u32,
    pub version: u8,
}

// Whether a connection can have this ceiling, the largest frame that it takes: 16 to MAX_FRAME.
pub fn ceiling_ok(ceiling: u32) -> bool
    ensures { result ≡ ceiling_ok ceiling }
{
    let most = ceiling as usize;
    if most < HEADER {
        return false;
    }
    most <= MAX_FRAME
}

// Checks a fixed header under a ceiling. Refused as 41 where the ceiling is out of range, as 9 where it is not 16 bytes, else as 3 to 7.
pub fn check_header(bytes: &[u8], ceiling: u32) -> Result<(), Refusal>
    ensures { code_of result ≡ header_error ceiling bytes.now }
{
    if !ceiling_ok(ceiling) {
        return Err(Refusal::BadCeiling);
    }
    if bytes.len() != HEADER {
        return Err(Refusal::WrongFrame);
    }
    header::check(bytes, ceiling)
}

// Whether a fixed header is good under a ceiling: that `check_header` does not refuse it, in fewer steps. With one function for both, a
// small request costs 5 % more to read, or each frame more than 8 instructions more to cut.
pub fn header_good(bytes: &[u8], ceiling: u32) -> bool
    ensures { result ≡ eqb (header_error ceiling bytes.now) 0 }
{
    if !ceiling_ok(ceiling) {
        return false;
    }
    if bytes.len() != HEADER {
        return false;
    }
    header::good(bytes, ceiling)
}

// The total size that the first 16 bytes declare, good or not; 0 where there are fewer.
// No Option: the deframer has 16 bytes at both places that ask, so that it would have no answer to a None.
pub fn declared_size(bytes: &[u8]) -> usize
    ensures { result ≡ declared_size bytes.now }
{
    if bytes.len() < HEADER {
        return 0;
    }
    header::total(&bytes[..HEADER])
}

// What a fixed header says, or why it is refused under a ceiling.
pub fn parse_header(bytes: &[u8], ceiling: u32) -> Result<FixedHeader, Refusal>
    ensures { in_numbers result ≡ parsed ceiling bytes.now }
{
    check_header(bytes, ceiling)?;
    Ok(header::header_in(bytes))
}

// Puts the 16 bytes of a header at the start of the output and returns their number. An output that has fewer bytes is left as
// it was, and the answer is 0. A total past 32 bits or a header size past 16 is written by its low bits.
pub fn put_header(header: FixedHeader, out: &mut [u8]) -> usize
    ensures { (result ≡ (header_put header out.old).count) × (out.new ≡ (header_put header out.old).output) }
{
    if out.len() < HEADER {
        return 0;
    }
    out[..HEADER].copy_from_slice(&put::bytes_of(header));
    HEADER
}
