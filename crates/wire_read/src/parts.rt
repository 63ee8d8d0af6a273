// Bytes of a part of a slice.
ghost use Rattle.std.specs.Prelude.{◌≡◌, ◌+◌, ◌≤◌, min, length, take, drop};
ghost use Rattle.wire_read.specs.Fields.{little_endian};

// Where a part that is to end at `end` ends: the slice may be shorter.
pub(crate) fn part_end(s: &[u8], end: usize) -> usize
    ensures { result ≡ min end (length s.now) }
{
    end.min(s.len())
}

// The four bytes from `at`, the low byte first.
// Two functions: std's `from_le_bytes` is of no trait, and a trait with its two impls would be longer.
pub(crate) fn little32(s: &[u8], at: usize) -> u32
    requires { at + 4 ≤ length s.now }
    ensures { result ≡ little_endian (take 4 (drop at s.now)) }
{
    u32::from_le_bytes([s[at], s[at + 1], s[at + 2], s[at + 3]])
}

// The eight bytes from `at`, the low byte first.
pub(crate) fn little64(s: &[u8], at: usize) -> u64
    requires { at + 8 ≤ length s.now }
    ensures { result ≡ little_endian (take 8 (drop at s.now)) }
{
    u64::from_le_bytes([
        s[at],
        s[at + 1],
        s[at + 2],
        s[at + 3],
        s[at + 4],
        s[at + 5],
        s[at + 6],
        s[at + 7],
    ])
}
