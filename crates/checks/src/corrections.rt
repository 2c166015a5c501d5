// The checks over the corrections, given the marks: 9 to 11. One pass asks whether anything is wrong; only where something is, each check
// looks for the first correction that fails it. All look at a correction by the same function.
ghost use Rattle.std.specs.Prelude.{◌≡◌, ◌≤◌, length};
ghost use Rattle.numbers.specs.Checks.{decision_for};
ghost use Rattle.dayfile.specs.Limits.{file_limits};
ghost use Rattle.dayfile.specs.Records.{marks_in, corrections_in};
ghost use Rattle.checks.specs.Corrections.{correction_checks, said_of_corrections, corrections_judged, resent_of};
ghost use Rattle.checks.specs.Faults.{correction_faults, any_correction_fault, some_correction_fault};
ghost use Rattle.checks.specs.Faults.{correction_decision};
ghost use Rattle.faults.specs.Faults.{said};

use crate::clashes::{first_clash, resent_count};
use crate::lists::{Marks, Ticked};
use crate::marks::above_limit;
use crate::searches::first_where;
use dayfile::{Correction, DayFile, correction_at, correction_count, mark_count};
use faults::{Fault, Refusal};
use numbers::Wanted;
use pairs::{Key, earlier};
use products::off_tick;

// What is wrong with a correction by itself.
#[derive(Clone, Copy, Debug, PartialEq, Eq)]
pub struct CorrectionFaults {
    // 9: it names no mark
    pub missing: bool,
    // 10: its price breaks 6 or 7 for its mark
    pub price: bool,
}

// The faults of a correction, given the marks.
fn faults(marks: Ticked<'_>, c: Correction) -> CorrectionFaults
    ensures { result ≡ correction_faults (marks_in marks.entry.marks.now) c }
{
    match marks.tick(c.mark) {
        Some(tick) => CorrectionFaults {
            missing: false,
            price: above_limit(c.price) | off_tick(c.price, tick),
        },
        None => CorrectionFaults {
            missing: true,
            price: above_limit(c.price),
        },
    }
}

fn any_fault(faults: CorrectionFaults) -> bool
    ensures { result ≡ any_correction_fault faults }
{
    faults.missing | faults.price
}

// Whether anything is wrong with some correction by itself. (A loop and no search by a closure, as for positions.)
fn some_fault(marks: Ticked<'_>, corrections: &[u8]) -> bool
    ensures { result ≡ some_correction_fault (marks_in marks.entry.marks.now) (corrections_in corrections.now) }
{
    let mut bad = false;
    for i in 0..correction_count(corrections) {
        bad |= any_fault(faults(marks, correction_at(corrections, i)));
    }
    bad
}

// The checks that are looked at, in their order. The first correction that clashes with an earlier one is known.
fn decide(
    marks: Ticked<'_>,
    corrections: &[u8],
    clash: Option<usize>,
    wanted: Wanted,
) -> Result<(), Refusal>
    ensures { said result ≡ correction_decision (marks_in marks.entry.marks.now) (corrections_in corrections.now) clash wanted }
{
    let n = correction_count(corrections);
    Fault::CorrectionMark.refuse(
        wanted,
        first_where(n, |i| faults(marks, correction_at(corrections, i)).missing),
    )?;
    Fault::CorrectionPrice.refuse(
        wanted,
        first_where(n, |i| faults(marks, correction_at(corrections, i)).price),
    )?;
    Fault::CorrectionClash.refuse(wanted, clash)
}

// What the checks over corrections say, and how many corrections bear a number that an earlier one bears.
#[derive(Clone, Copy, Debug, PartialEq, Eq)]
pub struct CorrectionsJudged {
    pub decision: Result<(), Refusal>,
    pub resent: usize,
}

// What the checks say of corrections within the file's limit, those that are looked at, given the marks.
pub(crate) fn decide_corrections(
    marks: Ticked<'_>,
    corrections: &[u8],
    wanted: Wanted,
) -> CorrectionsJudged
    requires { length (corrections_in corrections.now) ≤ file_limits.corrections }
    ensures { (said result.decision
        ≡ decision_for (correction_checks (marks_in marks.entry.marks.now) (corrections_in corrections.now)) wanted)
        × (result.resent ≡ resent_of (corrections_in corrections.now)) }
{
    let bad = some_fault(marks, corrections);
    // No heap: a place for each correction that a file may have.
    let mut numbers = [0u16; DayFile::MAX_CORRECTIONS];
    earlier(corrections, Correction::SIZE, Key::Four, &mut numbers);
    let clash = first_clash(corrections, &numbers);
    let resent = resent_count(corrections, &numbers);
    if bad | clash.is_some() {
        return CorrectionsJudged {
            decision: decide(marks, corrections, clash, wanted),
            resent,
        };
    }
    CorrectionsJudged {
        decision: Ok(()),
        resent,
    }
}

// What the checks say of a list of corrections, given the marks: 2 where a file may not have as many of either, then 9 to 11. The resent
// count goes with them; it is 0 with a refusal 2.
pub fn check_corrections(marks: &[u8], corrections: &[u8]) -> CorrectionsJudged
    ensures { said_of_corrections result ≡ corrections_judged file_limits (marks_in marks.now) (corrections_in corrections.now) }
{
    if (mark_count(marks) > DayFile::MAX_MARKS)
        | (correction_count(corrections) > DayFile::MAX_CORRECTIONS)
    {
        return CorrectionsJudged {
            decision: Err(Refusal::from(Fault::AboveLimits)),
            resent: 0,
        };
    }
    // No heap: a place for each mark that a file may have.
    let mut ticks = [0u32; DayFile::MAX_MARKS];
    crate::marks::some_fault(Marks { bytes: marks }, &mut ticks);
    let ticked = Ticked {
        marks,
        ticks: &ticks,
    };
    decide_corrections(ticked, corrections, Wanted::All)
}
