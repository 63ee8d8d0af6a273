// The grounds on which a record is refused before the size of its frame is known.
#![tactic(auto)]

mod fields;
mod keys;
mod rows;

ghost use Rattle.std.specs.Prelude.{◌≡◌, cond, Ok, Err};
ghost use Rattle.refusals.specs.Refusals.{code_of};
ghost use Rattle.writer_checks.specs.Grounds.{content_error};

use fields::{absent_ok, body_ok, spans_within};
use keys::LentRows;
use refusals::Refusal;
use rows::{rows_ok, rows_within};
use schema::Kind;

// A ground of refusal, where this does not hold.
fn require(holds: bool, refusal: Refusal) -> Result<(), Refusal>
    ensures { result ≡ cond holds (Ok tt) (Err refusal) }
{
    if holds { Ok(()) } else { Err(refusal) }
}

// The first ground that holds.
#[tactic(auto, unfolding(crate::specs::Grounds::content_error))]
pub fn content_error(
    kind: Kind,
    values: &[u32; 16],
    count: u32,
    source: &[u8],
    rows: &[u32],
    body_size: usize,
) -> Result<(), Refusal>
    ensures { code_of result ≡ content_error kind values.now count source.now rows.now body_size }
{
    require(rows_ok(kind, count, rows.len()), Refusal::BadRows)?;
    let spans = spans_within(kind, values, source.len());
    require(spans, Refusal::PastSource)?;
    let within = rows_within(rows, count as usize, source.len());
    require(within, Refusal::PastSource)?;
    let lent = LentRows {
        source,
        rows,
        count: count as usize,
    };
    require(lent.keys_differ(), Refusal::BadRows)?;
    // "or a meta part marked absent and not all zero, empty and rowless"
    require(absent_ok(kind, values, count), Refusal::BadRows)?;
    require(body_ok(kind, values, body_size), Refusal::BadBody)
}
