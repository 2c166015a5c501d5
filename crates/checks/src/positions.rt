// The checks over the positions, given the marks: 12, 13 and 16. One pass asks whether anything is wrong with a position by itself; only
// where something is, each check looks for the first position that fails it. All look at a position by the same function.
ghost use Rattle.std.specs.Prelude.{◌≡◌, ◌≤◌, length};
ghost use Rattle.numbers.specs.Folds.{first, repeating};
ghost use Rattle.numbers.specs.Checks.{decision_of, decision_for};
ghost use Rattle.dayfile.specs.Limits.{file_limits};
ghost use Rattle.dayfile.specs.Records.{marks_in, positions_in, position_at};
ghost use Rattle.checks.specs.Positions.{holding_pair, position_checks, position_list_checks};
ghost use Rattle.checks.specs.Faults.{raw_faults, counted_faults, any_position_fault, some_position_fault, position_decision};
ghost use Rattle.faults.specs.Faults.{said};

use crate::lists::Marks;
use crate::searches::first_where;
use dayfile::{DayFile, Position, RawPosition, mark_count, position_count, raw_position_at};
use faults::{Fault, Refusal};
use numbers::Wanted;
use pairs::{Key, first_repeated};

// The most lots that a position may have, long or short.
const LOTS_LIMIT: u32 = 1_000_000;

// What is wrong with a position by itself.
#[derive(Clone, Copy, Debug, PartialEq, Eq)]
pub struct PositionFaults {
    // 12: it names no mark
    pub missing: bool,
    // 13: its lots are 0, or more than a position may have
    pub lots: bool,
}

// The faults of a position as its bytes have it, given how many marks there are. The lots are moved up by the limit, so that those
// that pass are the lowest numbers.
fn faults(n: u32, w: RawPosition) -> PositionFaults
    ensures { result ≡ raw_faults n w }
{
    let moved = w.lots.wrapping_add(LOTS_LIMIT);
    PositionFaults {
        missing: n <= w.mark,
        lots: (moved == LOTS_LIMIT) | (moved > 2 * LOTS_LIMIT),
    }
}

// The faults of the position with index i.
fn faults_at(n: u32, positions: &[u8], i: usize) -> PositionFaults
    ensures { result ≡ counted_faults n (position_at (positions_in positions.now) i) }
{
    faults(n, raw_position_at(positions, i))
}

fn any_fault(faults: PositionFaults) -> bool
    ensures { result ≡ any_position_fault faults }
{
    faults.missing | faults.lots
}

// Whether anything is wrong with some position by itself. All are looked at, in numbers of 32 bits: so the compiler takes four at a time.
// (By a closure it takes one at a time, and settling a full file takes 1.2 times as long.)
fn some_fault(marks: Marks<'_>, positions: &[u8]) -> bool
    ensures { result ≡ some_position_fault (marks_in marks.entry.bytes.now) (positions_in positions.now) }
{
    let m = marks.count();
    let mut bad = false;
    for i in 0..position_count(positions) {
        bad |= any_fault(faults_at(m, positions, i));
    }
    bad
}

// The first position that repeats an earlier one. (Of marks the same: one function for both would be no plainer.)
fn repeated(positions: &[u8]) -> Option<usize>
    requires { length (positions_in positions.now) ≤ file_limits.positions }
    ensures { result
        ≡ first (repeating (holding_pair (positions_in positions.now))) (length (positions_in positions.now)) }
{
    first_repeated(positions, Position::SIZE, Key::Eight)
}

// The checks that are looked at, in their order. The first position that repeats an earlier one is known.
fn decide(
    marks: Marks<'_>,
    positions: &[u8],
    repeated: Option<usize>,
    wanted: Wanted,
) -> Result<(), Refusal>
    ensures { said result ≡ position_decision (marks_in marks.entry.bytes.now) (positions_in positions.now) repeated wanted }
{
    let m = marks.count();
    let n = position_count(positions);
    Fault::PositionMark.refuse(
        wanted,
        first_where(n, |i| faults_at(m, positions, i).missing),
    )?;
    Fault::Lots.refuse(wanted, first_where(n, |i| faults_at(m, positions, i).lots))?;
    Fault::RepeatedPosition.refuse(wanted, repeated)
}

// What the checks decide of positions within the file's limit, those that are looked at, given the marks.
pub(crate) fn decide_positions(
    marks: Marks<'_>,
    positions: &[u8],
    wanted: Wanted,
) -> Result<(), Refusal>
    requires { length (positions_in positions.now) ≤ file_limits.positions }
    ensures { said result ≡ decision_for (position_checks (marks_in marks.entry.bytes.now) (positions_in positions.now)) wanted }
{
    let bad = some_fault(marks, positions);
    let repeated = repeated(positions);
    if bad | repeated.is_some() {
        return decide(marks, positions, repeated, wanted);
    }
    Ok(())
}

// What the checks decide of a list of positions, given the marks: 2 where a file may not have as many of either, then 12, 13 and 16.
pub fn check_positions(marks: &[u8], positions: &[u8]) -> Result<(), Refusal>
    ensures { said result ≡ decision_of
        (position_list_checks file_limits (marks_in marks.now) (positions_in positions.now)) }
{
    if (mark_count(marks) > DayFile::MAX_MARKS)
        | (position_count(positions) > DayFile::MAX_POSITIONS)
    {
        return Err(Refusal::from(Fault::AboveLimits));
    }
    decide_positions(Marks { bytes: marks }, positions, Wanted::All)
}
