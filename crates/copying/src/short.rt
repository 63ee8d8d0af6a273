// Copies of up to 64 bytes, in two parts that may overlap. The compiler knows the size of each part, so that a part is a load and a
// store or two, and no call of memmove.
ghost use Rattle.std.specs.Prelude.{◌≡◌, ◌++◌, ◌+◌, ◌≤◌, length, drop};

use crate::parts::{copy_part, copy_parts};

// Copies the source to the start of the output: its first `size` bytes and its last, which are all of it.
fn copy_ends(source: &[u8], out: &mut [u8], size: usize)
    requires { (size ≤ 4096) × (size ≤ length source.now) × (length source.now ≤ size + size)
        × (length source.now ≤ length out.old) }
    ensures { out.new ≡ source.now ++ drop (length source.now) out.old }
{
    let last = source.len() - size;
    copy_part(&source[..size], out);
    copy_part(&source[last..], &mut out[last..]);
}

// Copies the source to the start of the output.
pub(crate) fn copy_short(source: &[u8], out: &mut [u8])
    requires { length source.now ≤ length out.old }
    ensures { out.new ≡ source.now ++ drop (length source.now) out.old }
{
    let n = source.len();
    if 64 < n {
        copy_parts(source, out);
    } else if 32 <= n {
        copy_ends(source, out, 32);
    } else if 16 <= n {
        copy_ends(source, out, 16);
    } else if 8 <= n {
        copy_ends(source, out, 8);
    } else if 4 <= n {
        copy_ends(source, out, 4);
    } else if 2 <= n {
        copy_ends(source, out, 2);
    } else if 1 <= n {
        out[0] = source[0];
    }
}
