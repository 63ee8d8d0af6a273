// What comes after a field's tag, by wire type.
ghost use Rattle.std.specs.Prelude.{◌≡◌};
ghost use Rattle.refusals.specs.Refusals.{in_numbers};
ghost use Rattle.wire_read.specs.Part.{part};
ghost use Rattle.wire_read.specs.Tags.{wire_type};
ghost use Rattle.wire_read.specs.Fields.{content};
ghost use Rattle.wire_read.specs.Placed.{field_at};

use crate::parts::{little32, little64};
use crate::skipping::skip_fixed;
use crate::wire_types::WireType;
use crate::{Field, MAX_DEPTH, Tag, read_length, read_varint, skip_value};
use refusals::Refusal;

// The field of this tag, whose content comes after it.
#[inline(always)]
pub(crate) fn content_of(s: &[u8], tag: Tag, end: usize) -> Result<Option<Field>, Refusal>
    ensures { in_numbers result
        ≡ field_at tag.next (content tag.number (wire_type tag.wire_type) (part s.now tag.next end)) }
{
    let number = tag.number;
    let at = tag.next;
    let field = match WireType::from(tag.wire_type) {
        WireType::Varint => {
            let v = read_varint(s, at, end)?;
            Field::Varint(number, v.value, v.next)
        }
        WireType::I64 => {
            let next = skip_fixed(s, at, end, 8)?;
            Field::Fixed64(number, little64(s, at), next)
        }
        WireType::Len => {
            let l = read_length(s, at, end)?;
            Field::Bytes(number, l.start, l.size)
        }
        WireType::SGroup => {
            let next = skip_value(s, at, end, number, 3, MAX_DEPTH)?;
            Field::Group(number, next)
        }
        WireType::I32 => {
            let next = skip_fixed(s, at, end, 4)?;
            Field::Fixed32(number, little32(s, at), next)
        }
        WireType::EGroup | WireType::Reserved => return Err(Refusal::BadTag),
    };
    Ok(Some(field))
}
