// The file of three lists, written into a lent buffer: the header, then each section from its own offset on.
ghost use Rattle.std.specs.Prelude.{◌<◌, ◌≤◌, length};
ghost use Rattle.numbers.specs.Bytes.{u32_bytes};
ghost use Rattle.dayfile.specs.Layout.{header_size, length_of};
ghost use Rattle.dayfile.specs.Making.{entry_bytes, header_of, made_of};
ghost use Rattle.dayfile.specs.WithinLimits.{CountsWithinLimits, WholeRecords};
ghost use Rattle.text.specs.Writing.{Wrote};

use crate::plans::Lists;
use dayfile::DayFile;
use text::write_text;

// A number's four bytes, the lowest first.
fn write_u32(n: u32, out: &mut [u8])
    requires { 4 ≤ length out.old }
    ensures { Wrote (u32_bytes n) 4 out.old out.new }
{
    out[..4].copy_from_slice(&n.to_le_bytes());
}

// A section's count and offset.
fn write_entry(count: u32, start: usize, out: &mut [u8])
    requires { (start < 4_294_967_296) × (8 ≤ length out.old) }
    ensures { Wrote (entry_bytes count start) 8 out.old out.new }
{
    write_u32(count, out);
    write_u32(start as u32, &mut out[4..]);
}

fn write_header(d: DayFile, out: &mut [u8])
    requires { CountsWithinLimits d × (header_size ≤ length out.old) }
    ensures { Wrote (header_of d) header_size out.old out.new }
{
    write_entry(d.marks, DayFile::HEADER, out);
    write_entry(d.corrections, d.corrections_start(), &mut out[8..]);
    write_entry(d.positions, d.positions_start(), &mut out[16..]);
}

// A section's records, into the part of the buffer that starts at the section's offset.
fn write_section(records: &[u8], out: &mut [u8])
    requires { length records.now ≤ length out.old }
    ensures { Wrote records.now (length records.now) out.old out.new }
{
    write_text(records, out);
}

// The file of whole records with these counts, into a buffer that has room for it.
pub(crate) fn write_file(lists: Lists<'_>, d: DayFile, out: &mut [u8])
    requires { WholeRecords lists.marks.now lists.corrections.now lists.positions.now d
        × (length_of d ≤ length out.old) }
    ensures { Wrote (made_of lists.entry.marks.now lists.entry.corrections.now lists.entry.positions.now) (length_of d)
        out.old out.new }
{
    write_header(d, out);
    let marks_start = DayFile::HEADER;
    let corrections_start = d.corrections_start();
    let positions_start = d.positions_start();
    write_section(lists.marks, &mut out[marks_start..]);
    write_section(lists.corrections, &mut out[corrections_start..]);
    write_section(lists.positions, &mut out[positions_start..]);
}
