// The last of the fields with a tag.
ghost use Rattle.std.specs.Prelude.{◌≡◌, cond, Some, Ok};
ghost use Rattle.wire_walk.specs.Last.{replaces};

use wire_read::Field;

// What is found so far, after one more field of the walk.
pub(crate) fn later(found: Option<Field>, field: Field, tag: u32) -> Option<Field>
    ensures { result ≡ cond (replaces tag (Ok (Some field))) (Some field) found }
{
    if has_tag(field, tag) {
        Some(field)
    } else {
        found
    }
}

// Whether a field has this tag.
fn has_tag(field: Field, tag: u32) -> bool
    ensures { result ≡ replaces tag (Ok (Some field)) }
{
    let wanted = tag as u64;
    match field {
        Field::Varint(number, _, _) => number as u64 * 8 == wanted,
        Field::Fixed64(number, _, _) => number as u64 * 8 + 1 == wanted,
        Field::Bytes(number, _, _) => number as u64 * 8 + 2 == wanted,
        Field::Group(number, _) => number as u64 * 8 + 3 == wanted,
        Field::Fixed32(number, _, _) => number as u64 * 8 + 5 == wanted,
    }
}
