// 18: equal keys. Two are compared. Of more, each key has a place, and a mark there once it was seen, so that only keys with the
// same place are compared.
ghost use Rattle.std.specs.Prelude.{◌≡◌, ◌+◌, ◌*◌, ◌%◌, ◌<◌, ◌≤◌, length};
ghost use Rattle.decoder.specs.Fields.{part_of};
ghost use Rattle.decoder.specs.Rows.{rows_in};
ghost use Rattle.writer_checks.specs.Grounds.{keys_differ};
ghost use Rattle.writer_checks.specs.Marks.{RowsLie, none_after, place_of, MarkedFrom};

use decoder::find_key;

// The place of a key's mark: of its last byte and its length.
fn place_at(last: u8, size: u32) -> usize
    ensures { result ≡ (last + size * 32) % 256 }
{
    ((last as usize) + (size as usize) * 32) % 256
}

fn key_place(source: &[u8], key: u32, size: u32) -> usize
    requires { key + size ≤ length source.now }
    ensures { result ≡ place_of (part_of source.now key size) }
{
    if size == 0 {
        return 0;
    }
    place_at(source[(key as usize) + ((size as usize) - 1)], size)
}

// Rows that are lent, and lie within the source.
#[derive(Clone, Copy)]
pub(crate) struct LentRows<'a> {
    pub source: &'a [u8],
    pub rows: &'a [u32],
    pub count: usize,
    ghost lie: { RowsLie source.now rows.now count },
}

impl<'a> LentRows<'a> {
    // No row after row i has its key.
    fn no_key(&self, i: usize) -> bool
        requires { i < self.now.count }
        ensures { result ≡ none_after self.now.source.now self.now.rows.now self.now.count i }
    {
        let at = i * 4;
        let key = self.rows[at] as usize;
        let key_size = self.rows[at + 1] as usize;
        let after = self.count - (i + 1);
        find_key(self.source, &self.rows[at + 4..], after, key, key_size) == after
    }

    // The same where the keys after it are marked: one whose place has no mark is none of them. Then its own is marked, too.
    fn mark_key(&self, i: usize, seen: &mut [u8; 256]) -> bool
        requires { (i < self.now.count) × MarkedFrom self.now.source.now self.now.rows.now self.now.count (i + 1) seen.old }
        ensures { (result ≡ none_after self.now.source.now self.now.rows.now self.now.count i)
            × MarkedFrom self.now.source.now self.now.rows.now self.now.count i seen.new }
    {
        let place = key_place(self.source, self.rows[i * 4], self.rows[i * 4 + 1]);
        let mark = seen[place];
        seen[place] = 1;
        if mark == 0 {
            return true;
        }
        self.no_key(i)
    }

    // From the last row to the first.
    #[tactic(auto, unfolding(crate::specs::Grounds::keys_differ, crate::specs::Marks::Marked))]
    fn marks_differ(&self, seen: &mut [u8; 256]) -> bool
        ensures { result ≡ keys_differ self.now.source.now (rows_in self.now.count self.now.rows.now) }
    {
        let mut differ = true;
        for i in (0..self.count).rev() {
            differ = self.mark_key(i, seen) & differ;
        }
        differ
    }

    // The marks are an array and no set: there is no heap here.
    pub(crate) fn keys_differ(&self) -> bool
        ensures { result ≡ keys_differ self.now.source.now (rows_in self.now.count self.now.rows.now) }
    {
        if self.count < 2 {
            return true;
        }
        if self.count == 2 {
            return self.no_key(0);
        }
        self.marks_differ(&mut [0; 256])
    }
}
