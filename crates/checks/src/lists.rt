// Lists of records with what is known of them: no list is longer than a file's, and each mark has its tick.
ghost use Rattle.std.specs.Prelude.{◌≡◌, ◌≤◌, length};
ghost use Rattle.dayfile.specs.Limits.{file_limits};
ghost use Rattle.dayfile.specs.Records.{marks_in, lists_of};
ghost use Rattle.dayfile.specs.WithinLimits.{CountsWithinLimits, ListsWithinLimits};
ghost use Rattle.checks.specs.Faults.{Ticks, tick_from};

use dayfile::{DayFile, mark_count};

// Marks, no more than a file may have.
#[derive(Clone, Copy)]
pub struct Marks<'a> {
    pub bytes: &'a [u8],
    pub ghost few: { length (marks_in bytes.now) ≤ file_limits.marks },
}

impl Marks<'_> {
    // How many there are, in 32 bits.
    pub(crate) fn count(self) -> u32
        ensures { result ≡ length (marks_in self.entry.bytes.now) }
    {
        mark_count(self.bytes) as u32
    }
}

// Marks with the tick of each. No heap: there is a place for the tick of each mark that a file may have.
#[derive(Clone, Copy)]
pub(crate) struct Ticked<'a> {
    pub(crate) marks: &'a [u8],
    pub(crate) ticks: &'a [u32; DayFile::MAX_MARKS],
    pub(crate) ghost ticked: { Ticks (marks_in marks.now) ticks.now },
}

impl Ticked<'_> {
    // The tick of the mark with index m, if there is one.
    pub(crate) fn tick(self, m: usize) -> Option<u32>
        ensures { result ≡ tick_from (marks_in self.entry.marks.now) m }
    {
        if m < mark_count(self.marks) {
            Some(self.ticks[m])
        } else {
            None
        }
    }
}

// Three lists, of which none has more records than a file may have.
#[derive(Clone, Copy)]
pub(crate) struct Records<'a> {
    pub(crate) marks: &'a [u8],
    pub(crate) corrections: &'a [u8],
    pub(crate) positions: &'a [u8],
    pub(crate) ghost within: { ListsWithinLimits (lists_of marks.now corrections.now positions.now) },
}

impl<'a> Records<'a> {
    ghost use Rattle.dayfile.specs.Layout.{lists_in};
    ghost use Rattle.checks.specs.Judging.{lists_of_records};

    // Those of a file, by its counts.
    pub(crate) fn of(file: &'a [u8], d: DayFile) -> Records<'a>
        requires { CountsWithinLimits d }
        ensures { lists_of_records result ≡ lists_in file.now d }
    {
        Records {
            marks: d.marks_in(file),
            corrections: d.corrections_in(file),
            positions: d.positions_in(file),
        }
    }
}
