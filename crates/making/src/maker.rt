// The maker of a day file.
ghost use Rattle.std.specs.Prelude.{◌≡◌, length};
ghost use Rattle.dayfile.specs.Limits.{file_limits};
ghost use Rattle.making.specs.Making.{said, answer_of, buffer_after};

use crate::plans::{Lists, plan_of};
use crate::writing::write_file;
use faults::Refusal;

// Makes the day file of three lists, which are lent as the bytes of their records: the file's length, with the file at the start of the
// buffer. The lists are lent one by one, as C lends them.
pub fn make(
    marks: &[u8],
    corrections: &[u8],
    positions: &[u8],
    out: &mut [u8],
) -> Result<usize, Refusal>
    ensures answer { said result
        ≡ answer_of file_limits marks.now corrections.now positions.now (length out.old) }
    ensures written { out.new
        ≡ buffer_after file_limits marks.now corrections.now positions.now out.old }
{
    let lists = Lists {
        marks,
        corrections,
        positions,
    };
    let d = plan_of(lists, out.len())?;
    write_file(lists, d, out);
    Ok(d.length())
}
