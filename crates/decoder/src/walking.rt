// The walk over the fields of a part of the frame. Document 01: "The field walk is a reader that refers
// to the lent header bytes with its place in them."
ghost use Rattle.std.specs.Prelude.{◌≡◌, ◌≤◌, length, take};
ghost use Rattle.refusals.specs.Refusals.{in_numbers};
ghost use Rattle.fixed_header.specs.Header.{max_frame};
ghost use Rattle.wire_walk.specs.Reader.{step_at};
ghost use Rattle.decoder.specs.Fields.{start_of};

use refusals::Refusal;
use wire_walk::{Step, field_at};

// The field that a reader of the frame's bytes up to `end` finds at this place, and the place after it.
#[inline(always)]
pub(crate) fn step_in(frame: &[u8], at: usize, end: usize) -> Result<Option<Step>, Refusal>
    requires { end ≤ length frame.now }
    ensures { in_numbers result ≡ step_at (take end frame.now) at }
{
    field_at(&frame[..end], at)
}

// "A byte field is a start and length counted from the frame's first byte; an empty one is 0, 0."
pub(crate) fn start_of(start: usize, size: usize) -> u32
    requires { start ≤ max_frame }
    ensures { result ≡ start_of start size }
{
    if size == 0 { 0 } else { start as u32 }
}
