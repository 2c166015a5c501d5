// Which day file three lists make: the checks over them, in their order.
ghost use Rattle.std.specs.Prelude.{◌≡◌};
ghost use Rattle.dayfile.specs.Limits.{file_limits};
ghost use Rattle.dayfile.specs.Records.{lists_of};
ghost use Rattle.dayfile.specs.Making.{counts_in};
ghost use Rattle.dayfile.specs.WithinLimits.{ListsWithinLimits};
ghost use Rattle.making.specs.Conditions.{broken_list};
ghost use Rattle.making.specs.MakingSteps.{planned, room_plan, plan_of};

use checks::{check_records, too_many};
use dayfile::{Correction, DayFile, Mark, Position, correction_count, mark_count, position_count};
use faults::{Fault, Refusal};

// The three lists of a file to make, lent as the bytes of their records.
#[derive(Clone, Copy)]
pub(crate) struct Lists<'a> {
    pub(crate) marks: &'a [u8],
    pub(crate) corrections: &'a [u8],
    pub(crate) positions: &'a [u8],
}

impl Lists<'_> {
    // 3: a list is not whole records.
    pub(crate) fn broken(self) -> bool
        ensures { result
            ≡ (broken_list self.entry.marks.now self.entry.corrections.now self.entry.positions.now).test 0 }
    {
        (self.marks.len() % Mark::SIZE != 0)
            | (self.corrections.len() % Correction::SIZE != 0)
            | (self.positions.len() % Position::SIZE != 0)
    }

    // How many records there are in each. (`as`: lists within the limits are proved to fit.)
    pub(crate) fn counts(self) -> DayFile
        requires { ListsWithinLimits (lists_of self.marks.now self.corrections.now self.positions.now) }
        ensures { result ≡ counts_in self.entry.marks.now self.entry.corrections.now self.entry.positions.now }
    {
        DayFile {
            marks: mark_count(self.marks) as u32,
            corrections: correction_count(self.corrections) as u32,
            positions: position_count(self.positions) as u32,
        }
    }
}

// 17: the buffer is shorter than the file.
fn with_room(d: DayFile, room: usize) -> Result<DayFile, Refusal>
    ensures { planned result ≡ room_plan d room }
{
    if room < d.length() {
        return Err(Refusal::from(Fault::Room));
    }
    Ok(d)
}

// Checks 2 and 3, then 4 to 13 and 16, then 17, for a buffer of so many bytes: the counts of the file to make.
// (Two laws are named here and in no answer, so that the proof goes by what a refusal says and not by how it is handed on.)
#[tactic(auto, using(crate::proofs::Planned::planned_records, crate::proofs::Planned::planned_room))]
pub(crate) fn plan_of(lists: Lists<'_>, room: usize) -> Result<DayFile, Refusal>
    ensures { planned result
        ≡ plan_of file_limits lists.entry.marks.now lists.entry.corrections.now lists.entry.positions.now room }
{
    if too_many(lists.marks, lists.corrections, lists.positions) {
        return Err(Refusal::from(Fault::AboveLimits));
    }
    if lists.broken() {
        return Err(Refusal::from(Fault::Layout));
    }
    check_records(lists.marks, lists.corrections, lists.positions)?;
    with_room(lists.counts(), room)
}
