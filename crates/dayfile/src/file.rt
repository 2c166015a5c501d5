// The layout of a day file, and its header: checks 1, 2 and 3.
ghost use Rattle.std.specs.Prelude.{◌≡◌, ◌-◌, ◌≤◌, length};
ghost use Rattle.faults.specs.Faults.{said};
ghost use Rattle.dayfile.specs.Limits.{file_limits};
ghost use Rattle.numbers.specs.Bytes.{part};
ghost use Rattle.dayfile.specs.Layout.{header_size, counts_of, corrections_start, positions_start, length_of};
ghost use Rattle.dayfile.specs.Layout.{mark_bytes, correction_bytes, position_bytes};
ghost use Rattle.dayfile.specs.Opening.{within_limits, as_laid_out, opened, opened_of, header_decision, decided_by_tests, counted_of};

use crate::bytes::u32_at;
use crate::records::{Correction, Mark, Position};
use faults::{Fault, Refusal};
use numbers::Wanted;

// The counts of a day file's three sections.
#[derive(Clone, Copy, Debug, PartialEq, Eq)]
pub struct DayFile {
    pub marks: u32,
    pub corrections: u32,
    pub positions: u32,
}

impl DayFile {
    pub const MAX_MARKS: usize = 256;

    pub const MAX_CORRECTIONS: usize = 512;

    pub const MAX_POSITIONS: usize = 4_096;

    pub const HEADER: usize = 24;

    // Offsets, length and sections have a name each: one function of them all would match the section again.

    // Where the corrections start, in bytes from the file's start.
    pub fn corrections_start(self) -> usize
        ensures { result ≡ corrections_start self }
    {
        DayFile::HEADER + Mark::SIZE * (self.marks as usize)
    }

    // Where the positions start.
    pub fn positions_start(self) -> usize
        ensures { result ≡ positions_start self }
    {
        self.corrections_start() + Correction::SIZE * (self.corrections as usize)
    }

    // Where the file ends.
    pub fn length(self) -> usize
        ensures { result ≡ length_of self }
    {
        self.positions_start() + Position::SIZE * (self.positions as usize)
    }

    // The bytes of a file's marks, as far as the file has them.
    pub fn marks_in(self, file: &[u8]) -> &[u8]
        ensures { result.now ≡ mark_bytes file.now self }
    {
        section(file, DayFile::HEADER, self.corrections_start())
    }

    // Those of its corrections.
    pub fn corrections_in(self, file: &[u8]) -> &[u8]
        ensures { result.now ≡ correction_bytes file.now self }
    {
        section(file, self.corrections_start(), self.positions_start())
    }

    // Those of its positions.
    pub fn positions_in(self, file: &[u8]) -> &[u8]
        ensures { result.now ≡ position_bytes file.now self }
    {
        section(file, self.positions_start(), self.length())
    }

    // Whether the counts are within the file's limits.
    fn within_limits(self) -> bool
        ensures { result ≡ within_limits file_limits self }
    {
        (self.marks as usize <= DayFile::MAX_MARKS)
            & (self.corrections as usize <= DayFile::MAX_CORRECTIONS)
            & (self.positions as usize <= DayFile::MAX_POSITIONS)
    }

    // Whether the offsets and the file's length are those of the layout.
    fn as_laid_out(self, s: &[u8]) -> bool
        requires { header_size ≤ length s.now }
        ensures { result ≡ as_laid_out s.now self }
    {
        (u32_at(s, 4) as usize == DayFile::HEADER)
            & (u32_at(s, 12) as usize == self.corrections_start())
            & (u32_at(s, 20) as usize == self.positions_start())
            & (s.len() == self.length())
    }
}

// The bytes from one place to another, as far as the file has them.
fn section(file: &[u8], start: usize, end: usize) -> &[u8]
    ensures { result.now ≡ part start (end - start) file.now }
{
    file.get(start..end.min(file.len())).unwrap_or(&[])
}

// The counts of the header.
fn counts(s: &[u8]) -> DayFile
    requires { header_size ≤ length s.now }
    ensures { result ≡ counts_of s.now }
{
    DayFile {
        marks: u32_at(s, 0),
        corrections: u32_at(s, 8),
        positions: u32_at(s, 16),
    }
}

// The counts of a header that stands whole, where they are within the limits: checks 1 and 2 alone.
pub fn counted(s: &[u8]) -> Result<DayFile, Fault>
    ensures { opened result ≡ counted_of file_limits s.now }
{
    if s.len() < DayFile::HEADER {
        return Err(Fault::ShortFile);
    }
    let d = counts(s);
    if d.within_limits() {
        Ok(d)
    } else {
        Err(Fault::AboveLimits)
    }
}

// Checks 1 to 3: the file's counts, or the first of these checks that it fails.
pub fn open_file(s: &[u8]) -> Result<DayFile, Fault>
    ensures { opened result ≡ opened_of file_limits s.now }
{
    let d = counted(s)?;
    if d.as_laid_out(s) {
        Ok(d)
    } else {
        Err(Fault::Layout)
    }
}

// What three tests say, by those checks that are looked at. There is one file, and its index is 0. (Outcomes and no tests: of a short header
// the second and the third are not made.)
fn decided_by_tests(short: bool, above: bool, broken: bool, wanted: Wanted) -> Result<(), Refusal>
    ensures { said result ≡ decided_by_tests short above broken wanted }
{
    Fault::ShortFile.refuse(wanted, short.then_some(0))?;
    Fault::AboveLimits.refuse(wanted, above.then_some(0))?;
    Fault::Layout.refuse(wanted, broken.then_some(0))
}

// What checks 1 to 3 say, those of them that are looked at. Of a file that is shorter than a header its length alone is looked at.
pub fn decide_header(s: &[u8], wanted: Wanted) -> Result<(), Refusal>
    ensures { said result ≡ header_decision file_limits s.now wanted }
{
    if s.len() < DayFile::HEADER {
        return decided_by_tests(true, false, false, wanted);
    }
    let d = counts(s);
    decided_by_tests(false, !d.within_limits(), !d.as_laid_out(s), wanted)
}
