// Copies of bytes to a place of an output.
//
// A copy stores all of its bytes, or, where there is no room for them, leaves the output as it is. No function here has a `requires`:
// each takes every argument.
#![tactic(auto)]

mod parts;
mod short;

ghost use Rattle.std.specs.Prelude.{◌≡◌, ◌+◌, leb, length};
ghost use Rattle.copying.specs.Stored.{fits, stored};

use parts::copy_parts;
use short::copy_short;

// There is room for `size` bytes from the place `at`.
pub fn has_room(out: &[u8], at: usize, size: usize) -> bool
    ensures { result ≡ leb (at + size) (length out.now) }
{
    if at <= out.len() {
        size <= out.len() - at
    } else {
        false
    }
}

// Copies the source to the output, from the place `at`, and returns whether there was room for it.
pub fn copy_to(source: &[u8], out: &mut [u8], at: usize) -> bool
    ensures { (result ≡ fits out.old at source.now)
        × (out.new ≡ stored out.old at source.now) }
{
    if has_room(out, at, source.len()) {
        copy_parts(source, &mut out[at..]);
        return true;
    }
    false
}

// The same, for sources that are short most of the time: up to 64 bytes are copied with no call of memmove.
// Two functions: with both ways in one, the deframer would take 15 % more instructions.
pub fn copy_short_to(source: &[u8], out: &mut [u8], at: usize) -> bool
    ensures { (result ≡ fits out.old at source.now)
        × (out.new ≡ stored out.old at source.now) }
{
    let size = source.len();
    if has_room(out, at, size) {
        copy_short(source, &mut out[at..]);
        return true;
    }
    false
}
