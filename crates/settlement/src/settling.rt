// The settlement of a day file.
ghost use Rattle.std.specs.Prelude.{◌≡◌, ◌≤◌, length, Ok};
ghost use Rattle.dayfile.specs.Limits.{file_limits};
ghost use Rattle.dayfile.specs.Records.{positions_in, lists_of};
ghost use Rattle.settlement.specs.Settling.{said, accept, room_plan, answer_of, amounts_after};
ghost use Rattle.settlement.specs.SettlingSteps.{ListsPassWith, Settles};

use crate::amounts::pay;
use crate::cents::{Aud, Cents, Nzd};
use crate::groups::Changes;
use checks::{Marks, PassedFile, judge};
use dayfile::position_count;
use faults::{Fault, Refusal};

// The answer to a day file that is accepted: how many positions, the totals and the resent count.
#[derive(Clone, Copy, Debug, PartialEq, Eq)]
pub struct Settled {
    pub positions: usize,
    pub aud: Cents<Aud>,
    pub nzd: Cents<Nzd>,
    pub resent: usize,
}

// The answer to accepted records, and their amounts. (The three lists go together through two functions alone, and a struct for them is no
// plainer.)
fn settle_accepted(
    marks: &[u8],
    corrections: &[u8],
    positions: &[u8],
    resent: usize,
    amounts: &mut [i64],
) -> Settled
    requires { ListsPassWith (lists_of marks.now corrections.now positions.now) resent
        × (length (positions_in positions.now) ≤ length amounts.old) }
    ensures { Settles (accept (lists_of marks.now corrections.now positions.now))
        (Ok result) amounts.old amounts.new }
{
    let marks = Marks { bytes: marks };
    let mut changes = Changes::none();
    changes.work_all(marks, corrections);
    let sums = pay(marks, positions, &changes.change, amounts);
    Settled {
        positions: position_count(positions),
        aud: sums.aud,
        nzd: sums.nzd,
        resent,
    }
}

// Check 14, then the settlement.
fn settle_records(
    marks: &[u8],
    corrections: &[u8],
    positions: &[u8],
    resent: usize,
    amounts: &mut [i64],
) -> Result<Settled, Refusal>
    requires { ListsPassWith (lists_of marks.now corrections.now positions.now) resent }
    ensures { Settles
        (room_plan (lists_of marks.now corrections.now positions.now) (length amounts.old))
        result amounts.old amounts.new }
{
    if amounts.len() < position_count(positions) {
        return Err(Refusal::from(Fault::Places));
    }
    Ok(settle_accepted(marks, corrections, positions, resent, amounts))
}

// Settles a day file: its answer, with the amounts in the first places of the slice.
pub fn settle(file: &[u8], amounts: &mut [i64]) -> Result<Settled, Refusal>
    ensures answer { said result ≡ answer_of file_limits file.now (length amounts.old) }
    ensures written { amounts.new ≡ amounts_after file_limits file.now amounts.old }
{
    let PassedFile { counts, resent } = judge(file)?;
    settle_records(
        counts.marks_in(file),
        counts.corrections_in(file),
        counts.positions_in(file),
        resent,
        amounts,
    )
}
