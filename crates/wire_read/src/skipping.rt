// Values that are skipped and hold no other field: each returns the place after it.
ghost use Rattle.std.specs.Prelude.{◌≡◌, ◌<◌};
ghost use Rattle.refusals.specs.Refusals.{in_numbers};
ghost use Rattle.wire_read.specs.Part.{part};
ghost use Rattle.wire_read.specs.Skipping.{skip_varint, skip_fixed, skip_bytes};
ghost use Rattle.wire_read.specs.Placed.{skip_at};

use crate::parts::part_end;
use crate::{read_length, read_varint};
use refusals::Refusal;

// A varint.
pub(crate) fn skip_varint(s: &[u8], at: usize, end: usize) -> Result<usize, Refusal>
    ensures { in_numbers result ≡ skip_at at (skip_varint (part s.now at end)) }
{
    let v = read_varint(s, at, end)?;
    Ok(v.next)
}

// A value of a fixed width.
pub(crate) fn skip_fixed(s: &[u8], at: usize, end: usize, width: usize) -> Result<usize, Refusal>
    requires { 0 < width }
    ensures { in_numbers result ≡ skip_at at (skip_fixed width (part s.now at end)) }
{
    let stop = part_end(s, end);
    if at < stop && width <= stop - at {
        return Ok(at + width);
    }
    Err(Refusal::PastEnd)
}

// A length and its bytes.
pub(crate) fn skip_bytes(s: &[u8], at: usize, end: usize) -> Result<usize, Refusal>
    ensures { in_numbers result ≡ skip_at at (skip_bytes (part s.now at end)) }
{
    let l = read_length(s, at, end)?;
    Ok(l.start + l.size)
}
