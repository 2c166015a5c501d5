// What the checks say of a whole day file.
ghost use Rattle.std.specs.Prelude.{◌≡◌, IfOk};
ghost use Rattle.numbers.specs.Checks.{decision_of, decision_for};
ghost use Rattle.faults.specs.Faults.{said};
ghost use Rattle.dayfile.specs.Limits.{file_limits};
ghost use Rattle.dayfile.specs.Records.{lists_of};
ghost use Rattle.checks.specs.Corrections.{resent_of};
ghost use Rattle.checks.specs.Judging.{lists_of_records, record_checks, too_many_records, list_checks};
ghost use Rattle.checks.specs.Judging.{judged, judged_by, judged_of};

use crate::corrections::decide_corrections;
use crate::lists::{Marks, Records, Ticked};
use crate::marks::decide_marks;
use crate::positions::decide_positions;
use dayfile::{DayFile, correction_count, mark_count, open_file, position_count};
use faults::{Fault, Refusal};
use numbers::Wanted;

// A file that passes checks 1 to 13 and 16: its counts, and how many of its corrections bear a number that an earlier one bears.
#[derive(Clone, Copy, Debug, PartialEq, Eq)]
pub struct PassedFile {
    pub counts: DayFile,
    pub resent: usize,
}

// The checks over the records that are looked at, section by section, and how many corrections bear a number that an earlier one bears.
pub(crate) fn decide_records(records: Records<'_>, wanted: Wanted) -> Result<usize, Refusal>
    ensures decision { said result ≡ decision_for (record_checks (lists_of_records records.entry)) wanted }
    ensures resent { IfOk result (λ resent. resent ≡ resent_of (lists_of_records records.entry).corrections) }
{
    let marks = Marks {
        bytes: records.marks,
    };
    // No heap: a place for each mark that a file may have.
    let mut ticks = [0u32; DayFile::MAX_MARKS];
    decide_marks(marks, &mut ticks, wanted)?;
    let ticked = Ticked {
        marks: records.marks,
        ticks: &ticks,
    };
    let of_corrections = decide_corrections(ticked, records.corrections, wanted);
    of_corrections.decision?;
    decide_positions(marks, records.positions, wanted)?;
    Ok(of_corrections.resent)
}

// 2, of lists that stand in no file: a file may not have as many marks, corrections or positions.
pub fn too_many(marks: &[u8], corrections: &[u8], positions: &[u8]) -> bool
    ensures { result
        ≡ (too_many_records file_limits (lists_of marks.now corrections.now positions.now)).test 0 }
{
    (mark_count(marks) > DayFile::MAX_MARKS)
        | (correction_count(corrections) > DayFile::MAX_CORRECTIONS)
        | (position_count(positions) > DayFile::MAX_POSITIONS)
}

// What the checks say of three lists: 2 where a file may not have as many of any, then 4 to 13 and 16.
pub fn check_records(marks: &[u8], corrections: &[u8], positions: &[u8]) -> Result<(), Refusal>
    ensures { said result
        ≡ decision_of (list_checks file_limits (lists_of marks.now corrections.now positions.now)) }
{
    if too_many(marks, corrections, positions) {
        return Err(Refusal::from(Fault::AboveLimits));
    }
    let records = Records {
        marks,
        corrections,
        positions,
    };
    decide_records(records, Wanted::All)?;
    Ok(())
}

// What all checks over the records say.
fn judge_records(records: Records<'_>, counts: DayFile) -> Result<PassedFile, Refusal>
    ensures { judged result ≡ judged_by counts (resent_of (lists_of_records records.entry).corrections)
        (decision_of (record_checks (lists_of_records records.entry))) }
{
    let resent = decide_records(records, Wanted::All)?;
    Ok(PassedFile { counts, resent })
}

// Checks 1 to 13 and 16, in their order.
pub fn judge(file: &[u8]) -> Result<PassedFile, Refusal>
    ensures { judged result ≡ judged_of file_limits file.now }
{
    let d = open_file(file)?;
    judge_records(Records::of(file, d), d)
}
