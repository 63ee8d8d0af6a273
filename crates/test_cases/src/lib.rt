// What the test programs share: the parts of a case on standard input.
#![tactic(auto)]

ghost use Rattle.std.specs.Prelude.{◌≡◌, ◌≤◌, length, IfSome};

use std::io::{Read, Stdin};

// The next `n` bytes of standard input, at the start of the buffer. There are none where the buffer cannot hold them, or the input ends
// before. No contract can say which bytes these are.
pub fn read_part<'a>(mut from: Stdin, buffer: &'a mut [u8], n: usize) -> Option<&'a mut [u8]>
    ensures count { IfSome result (λ part. length part.now ≡ n) }
    ensures held { IfSome result (λ part. length part.now ≤ length buffer.old) }
{
    let part = buffer.get_mut(..n)?;
    from.read_exact(part).ok()?;
    Some(part)
}
