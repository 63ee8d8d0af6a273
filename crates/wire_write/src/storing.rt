// A varint that goes into an output with room for it.
ghost use Rattle.std.specs.Prelude.{◌≡◌, ◌+◌, ◌≤◌, length};
ghost use Rattle.copying.specs.Stored.{stored};
ghost use Rattle.wire_write.specs.Writing.{put_varint};

// Stores the shortest varint of `v`, and returns the place after it.
// Here and in `writer`: it asks for room, and what a library hands out asks nothing of its callers.
pub(crate) fn put_varint(v: u64, out: &mut [u8], at: usize) -> usize
    requires { at + length (put_varint v) ≤ length out.old }
    ensures { (result ≡ at + length (put_varint v)) × (out.new ≡ stored out.old at (put_varint v)) }
{
    let mut rest = v;
    let mut i = at;
    // No iterator: the value ends the loop, and the place that it reaches is the answer.
    while 128 <= rest {
        out[i] = ((rest & 127) | 128) as u8;
        rest >>= 7;
        i += 1;
    }
    out[i] = rest as u8;
    i + 1
}
