// Standard input, read into a lent buffer.
ghost use Rattle.std.specs.Io.{ReadsAtMost};
ghost use Rattle.std.specs.Io.KnownBytes.{ReadConsumes};
ghost use Rattle.sheet.specs.Input.{InBuffer, Holds};

use std::io::{self, ErrorKind, Read};

// One read, made again where a signal interrupts it. What it brings is as of `Read::read`: where there is room, 0 is the input's end.
fn read_some<R: Read>(reader: &mut R, part: &mut [u8]) -> io::Result<usize>
    ensures count { ReadsAtMost result part.new }
    ensures bytes { ReadConsumes (R.remaining reader.old) (R.remaining reader.new) result part.new }
{
    for _ in 0..u64::MAX {
        match reader.read(part) {
            Err(e) if e.kind() == ErrorKind::Interrupted => {}
            answer => return answer,
        }
    }
    Err(ErrorKind::Interrupted.into())
}

// Reads until the buffer is full or the input ends, and answers how many bytes stand at the start of the buffer.
pub(crate) fn read_file<R: Read>(reader: &mut R, file: &mut [u8]) -> io::Result<usize>
    ensures count { InBuffer result file.new }
    ensures bytes { Holds result (R.remaining reader.old) (R.remaining reader.new) file.new }
{
    // No `for`: the place moves by what a read brings.
    let mut n = 0;
    while n < file.len() {
        let k = read_some(reader, &mut file[n..])?;
        if k == 0 {
            return Ok(n);
        }
        n += k;
    }
    Ok(n)
}
