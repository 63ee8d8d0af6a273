// What a message is made of.
ghost use Rattle.std.specs.Prelude.{◌≡◌, ◌≤◌, true, length};
ghost use Rattle.schema.specs.Kinds.{schema_of};
ghost use Rattle.writer_checks.specs.Grounds.{spans_within, rows_within};
ghost use Rattle.writer.specs.Straight.{fours};

use schema::Kind;

// The fields of a kind by the order of its schema, the rows of its map, and the bytes that the starts in both count from.
#[derive(Clone, Copy)]
pub(crate) struct Message<'a> {
    pub kind: Kind,
    pub slots: &'a [u32; 16],
    pub rows: &'a [[u32; 4]],
    pub source: &'a [u8],
    // few enough that no size overflows
    ghost few: { length rows.now ≤ 64 },
    ghost rows_in: { rows_within (length source.now) (fours rows.now) ≡ true },
    ghost spans_in: { spans_within (length source.now) (schema_of kind) 0 slots.now ≡ true },
}
