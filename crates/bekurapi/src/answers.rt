// Each answer that is an enum as numbers: the error code, 0 for none, and the value beside it.
// C's interface: a call answers a number, and a value that there is not is 0.
ghost use Rattle.std.specs.Prelude.{◌≡◌};
ghost use Rattle.writer.specs.Writing.{count_of};
ghost use Rattle.refusals.specs.Refusals.{in_numbers, code_of};
ghost use Rattle.deframer.specs.InNumbers.{progress_in_numbers, end_in_numbers};
ghost use Rattle.bekurapi.specs.Answers.{header_given, progress_error, progress_size};
ghost use Rattle.bekurapi.specs.Answers.{end_error, end_short};

use deframer::{End, Progress};
use fixed_header::{FixedHeader, FrameType};
use refusals::Refusal;

// The number in an answer: 0, or the refusal's.
pub(crate) fn error_of<A: Copy>(answer: Result<A, Refusal>) -> u32
    ensures { result ≡ code_of answer }
{
    match answer {
        Ok(_) => 0,
        Err(refusal) => refusal.number(),
    }
}

// What a good header says; of a refused one all is zero.
// No Default: a frame type where there is no header is for C alone.
pub(crate) fn header_in(parsed: Result<FixedHeader, Refusal>) -> FixedHeader
    ensures { result ≡ header_given (in_numbers parsed) }
{
    parsed.unwrap_or(FixedHeader {
        frame_type: FrameType::Unary,
        total: 0,
        header_size: 0,
        id: 0,
        version: 0,
    })
}

pub(crate) fn progress_error(progress: Progress) -> u32
    ensures { result ≡ progress_error (progress_in_numbers progress) }
{
    match progress {
        Progress::Frame(_) => 0,
        Progress::NeedMore => 0,
        Progress::Refused(refusal) => refusal.number(),
    }
}

pub(crate) fn progress_size(progress: Progress) -> usize
    ensures { result ≡ progress_size (progress_in_numbers progress) }
{
    match progress {
        Progress::Frame(size) => size,
        Progress::NeedMore => 0,
        Progress::Refused(_) => 0,
    }
}

pub(crate) fn end_error(end: End) -> u32
    ensures { result ≡ end_error (end_in_numbers end) }
{
    match end {
        End::Clean => 0,
        End::Short(_) => 0,
        End::Refused(refusal) => refusal.number(),
    }
}

pub(crate) fn end_short(end: End) -> usize
    ensures { result ≡ end_short (end_in_numbers end) }
{
    match end {
        End::Clean => 0,
        End::Short(count) => count,
        End::Refused(_) => 0,
    }
}

pub(crate) fn encoded_size(encoded: Result<usize, Refusal>) -> usize
    ensures { result ≡ count_of (in_numbers encoded) }
{
    match encoded {
        Ok(size) => size,
        Err(_) => 0,
    }
}
