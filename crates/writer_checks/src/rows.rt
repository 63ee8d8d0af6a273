// The grounds that the rows give: 18's first three, and 17.
ghost use Rattle.std.specs.Prelude.{◌≡◌, ◌*◌, ◌≤◌, length};
ghost use Rattle.decoder.specs.Rows.{rows_in};
ghost use Rattle.writer_checks.specs.Grounds.{has_map, rows_ok, rows_within};
ghost use Rattle.writer_checks.specs.Fours.{row_within};

use crate::fields::span_within;
use schema::Kind;

const MAX_ROWS: u32 = 64;

#[tactic(auto, unfolding(crate::specs::Grounds::has_map))]
fn has_map(kind: Kind) -> bool
    ensures { result ≡ has_map kind }
{
    match kind {
        Kind::Request => true,
        Kind::Response => true,
        Kind::Init => true,
        Kind::Data => false,
        Kind::Feedback => false,
        Kind::Close => true,
    }
}

// Few enough, with a kind that has a map, and all of them lent.
#[tactic(auto, unfolding(crate::specs::Grounds::rows_ok))]
pub(crate) fn rows_ok(kind: Kind, count: u32, lent: usize) -> bool
    ensures { result ≡ rows_ok kind count lent }
{
    let few = count <= MAX_ROWS;
    let allowed = has_map(kind) | (count == 0);
    few & allowed & ((count as usize) * 4 <= lent)
}

fn row_within(row: &[u32; 4], size: usize) -> bool
    ensures { result ≡ row_within size row.now }
{
    let [key, key_size, value, value_size] = *row;
    span_within(key, key_size, size) & span_within(value, value_size, size)
}

pub(crate) fn rows_within(rows: &[u32], count: usize, size: usize) -> bool
    requires { count * 4 ≤ length rows.now }
    ensures { result ≡ rows_within size (rows_in count rows.now) }
{
    // most messages have none
    if count == 0 {
        return true;
    }
    let (rows, _) = rows[..count * 4].as_chunks::<4>();
    rows.iter().all(|row| row_within(row, size))
}
