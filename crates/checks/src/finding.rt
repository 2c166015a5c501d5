// What one check finds in a day file by itself, so that more than the first fault of a file can be told at once.
ghost use Rattle.std.specs.Prelude.{◌≡◌};
ghost use Rattle.numbers.specs.Checks.{decision_for};
ghost use Rattle.numbers.specs.declared.wanted.Wanted.TheVariants.{One};
ghost use Rattle.faults.specs.Faults.{said};
ghost use Rattle.dayfile.specs.Limits.{file_limits};
ghost use Rattle.checks.specs.Judging.{lists_of_records, record_checks};
ghost use Rattle.checks.specs.Finding.{checks_of, found_of};

use crate::judging::decide_records;
use crate::lists::Records;
use dayfile::{counted, decide_header};
use faults::Refusal;
use numbers::Wanted;

// What check k says by itself, of those over records.
fn decide_one(records: Records<'_>, k: u32) -> Result<(), Refusal>
    ensures { said result ≡ decision_for (record_checks (lists_of_records records.entry)) (One k) }
{
    decide_records(records, Wanted::One(k))?;
    Ok(())
}

// What the header and, where its counts are within the limits, the records say to check k.
fn look(file: &[u8], k: u32) -> Result<(), Refusal>
    ensures { said result ≡ decision_for (checks_of file_limits file.now) (One k) }
{
    decide_header(file, Wanted::One(k))?;
    match counted(file) {
        Ok(d) => decide_one(Records::of(file, d), k),
        Err(_) => Ok(()),
    }
}

// The first record where the condition of check k holds, whatever the other checks say; k is a number from 1 to 13 or 16, and any
// other finds nothing. Of a file that is shorter than a header its length alone is looked at, and of one that has a count above its limit
// the header alone.
pub fn find(file: &[u8], k: u32) -> Option<usize>
    ensures { result ≡ found_of file_limits file.now k }
{
    look(file, k).err().map(|refusal| refusal.index)
}
