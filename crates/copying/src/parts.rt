// Copies of any length, in parts. A part goes through a local array, which overlaps nothing: so the compiler makes the two loops of
// `copy_from_slice` one call of memmove, and leaves the array out.
ghost use Rattle.std.specs.Prelude.{◌≡◌, ◌++◌, ◌+◌, ◌≤◌, ◌<◌, length, drop};

// Copies the source to the start of the output.
// The two slices are no struct: each copy splits both, and would build it anew for each part.
pub(crate) fn copy_part(source: &[u8], out: &mut [u8])
    requires { (length source.now ≤ 4096) × (length source.now ≤ length out.old) }
    ensures { out.new ≡ source.now ++ drop (length source.now) out.old }
{
    let n = source.len();
    let mut local = [0; 4096];
    local[..n].copy_from_slice(source);
    out[..n].copy_from_slice(&local[..n]);
}

// Where the part ends that starts at i.
fn part_end(i: usize, size: usize) -> usize
    requires { i < size }
    ensures { (i < result) × (result ≤ size) × (result ≤ i + 4096) }
{
    if size - i <= 4096 { size } else { i + 4096 }
}

// Copies the source to the start of the output, part by part.
pub(crate) fn copy_parts(source: &[u8], out: &mut [u8])
    requires { length source.now ≤ length out.old }
    ensures { out.new ≡ source.now ++ drop (length source.now) out.old }
{
    let mut i: usize = 0;
    while i < source.len() {
        let end = part_end(i, source.len());
        copy_part(&source[i..end], &mut out[i..]);
        i = end;
    }
}
