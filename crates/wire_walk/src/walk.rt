// A step of the field walk, on a slice and a place.
ghost use Rattle.std.specs.Prelude.{◌≡◌};
ghost use Rattle.refusals.specs.Refusals.{in_numbers};
ghost use Rattle.wire_walk.specs.Reader.{step_at};

use crate::Step;
use refusals::Refusal;
use wire_read::Field;

// The field at this place, and the place after it; none at the end of the bytes.
#[inline(always)]
pub(crate) fn step_at(bytes: &[u8], at: usize) -> Result<Option<Step>, Refusal>
    ensures { in_numbers result ≡ step_at bytes.now at }
{
    let Some(field) = wire_read::next_field(bytes, at, bytes.len())? else {
        return Ok(None);
    };
    let next = match field {
        Field::Varint(_, _, next) => next,
        Field::Fixed64(_, _, next) => next,
        Field::Bytes(_, start, size) => start + size,
        Field::Group(_, next) => next,
        Field::Fixed32(_, _, next) => next,
    };
    Ok(Some(Step { field, at: next }))
}
