// Whether a message surely fits, by the lengths of its byte fields and of its rows alone: then it is not measured.
ghost use Rattle.std.specs.Prelude.{◌≡◌, ◌+◌, ◌≤◌, List};
ghost use Rattle.decoder.specs.Rows.{Row};
ghost use Rattle.schema.specs.Kinds.{schema_of};
ghost use Rattle.fixed_header.specs.Header.{max_frame};
ghost use Rattle.refusals.specs.Refusals.{code_of};
ghost use Rattle.writer.specs.Writing.{size_error};
ghost use Rattle.writer_checks.specs.Fours.{row_of};
ghost use Rattle.writer.specs.Straight.{fours, most_row, most_field, most_message};
ghost use Rattle.writer.specs.Straight.{rows_sum, row_most, size_by, most_by};

use crate::message::Message;
use fixed_header::HEADER;
use refusals::Refusal;
use schema::Kind;

fn row_most(row: &[u32; 4]) -> usize
    ensures { (result ≡ row_most (row_of row.now)) × (result ≤ most_row) }
{
    let [_, key_size, _, value_size] = *row;
    (key_size as usize) + (value_size as usize) + 12
}

fn rows_most(m: &Message) -> usize
    ensures { (result ≡ rows_sum row_most (fours m.now.rows.now)) × (result ≤ most_field) }
{
    let mut most = 0;
    for row in m.rows {
        most += row_most(row);
    }
    most
}

// What the fields of a kind take at most beside the rows of its map.
fn fields_most(kind: Kind, n: &[u32; 16]) -> usize
    ensures { ((rows : List Row) → most_by rows (schema_of kind) 0 n.now ≤ result + rows_sum row_most rows) × (result ≤ most_field) }
{
    match kind {
        Kind::Request => (n[5] as usize) + (n[7] as usize) + (n[9] as usize) + 100,
        Kind::Response => (n[6] as usize) + 103,
        Kind::Init => (n[2] as usize) + (n[4] as usize) + (n[6] as usize) + (n[11] as usize) + 79,
        Kind::Data => 0,
        Kind::Feedback => 11,
        Kind::Close => (n[3] as usize) + 48,
    }
}

fn message_most(m: &Message) -> usize
    ensures { (most_by (fours m.now.rows.now) (schema_of m.now.kind) 0 m.now.slots.now ≤ result) × (result ≤ most_message) }
{
    fields_most(m.kind, m.slots) + rows_most(m)
}

// 19: the frame; 27: the output. A sum past what a number holds is over any ceiling.
#[tactic(auto, unfolding(crate::specs::Writing::size_error))]
fn size_error(size: usize, body: usize, room: usize, ceiling: u32) -> Result<(), Refusal>
    requires { size ≤ most_message }
    ensures { code_of result ≡ size_error ceiling (16 + size + body) room }
{
    let most = ceiling as usize;
    let total = body.saturating_add(HEADER + size);
    if total > most {
        return Err(Refusal::FrameOver);
    }
    if room < total {
        return Err(Refusal::OutputShort);
    }
    Ok(())
}

impl<'a> Message<'a> {
    // The error of the sizes. Where a message of the bound surely fits, this one does, and it is not measured.
    pub(crate) fn fits(&self, body: usize, room: usize, ceiling: u32) -> Result<(), Refusal>
        requires { ceiling ≤ max_frame }
        ensures { code_of result ≡ size_error ceiling
            (16 + size_by (fours self.now.rows.now) (schema_of self.now.kind) 0 self.now.slots.now + body) room }
    {
        if size_error(message_most(self), body, room, ceiling).is_ok() {
            return Ok(());
        }
        size_error(self.size(), body, room, ceiling)
    }
}
