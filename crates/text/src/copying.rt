// Bytes copied into a lent buffer.
ghost use Rattle.std.specs.Prelude.{[], ◌∷◌};
ghost use Rattle.text.specs.Writing.{fitted, Wrote};

// Writes one byte.
pub fn write_byte(b: u8, out: &mut [u8]) -> usize
    ensures { Wrote (fitted (b ∷ []) out.old) result out.old out.new }
{
    write_text(&[b], out)
}

// Writes a text. (A loop and no `copy_from_slice`: where it is not known before how many bytes are copied, an archive for C would need
// memmove from outside, and the library needs nothing but memset.)
pub fn write_text(text: &[u8], out: &mut [u8]) -> usize
    ensures { Wrote (fitted text.now out.old) result out.old out.new }
{
    if out.len() < text.len() {
        return 0;
    }
    for i in 0..text.len() {
        out[i] = text[i];
    }
    text.len()
}
