// What is looked at before a byte is stored, in document 01's order: 11, then 27.
ghost use Rattle.std.specs.Prelude.{◌≡◌, ◌+◌, leb, length};
ghost use Rattle.refusals.specs.Refusals.{in_numbers};
ghost use Rattle.wire_write.specs.Writing.{good_tag, first_ground, found_ground};

use copying::has_room;
use refusals::Refusal;

// "A tag is a varint up to 4,294,967,295"; "Field 0 and wire types 6, 7 are bad."
pub(crate) fn good_tag(number: u32, wire_type: u32) -> bool
    ensures { result ≡ good_tag number wire_type }
{
    if (number as u64) * 8 + (wire_type as u64) <= 4294967295 {
        return 0 < number && wire_type < 6;
    }
    false
}

// There is room for `head` bytes from the place `at`, and for `size` bytes after them.
pub(crate) fn has_room_for_both(out: &[u8], at: usize, head: usize, size: usize) -> bool
    ensures { result ≡ leb (at + head + size) (length out.now) }
{
    has_room(out, at, head) && has_room(out, at + head, size)
}

// The first ground of refusal, if there is one.
#[tactic(auto, unfolding(crate::specs::Writing::first_ground))]
pub(crate) fn first_ground(good: bool, room: bool) -> Result<(), Refusal>
    ensures { in_numbers result ≡ found_ground (first_ground good room) }
{
    if !good {
        return Err(Refusal::BadTag);
    }
    if !room {
        return Err(Refusal::OutputShort);
    }
    Ok(())
}
