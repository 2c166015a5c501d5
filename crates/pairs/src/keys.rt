// The keys of a list of records, and how many of the records are looked at.
ghost use Rattle.std.specs.Prelude.{◌≡◌, ◌+◌, ◌/◌, ◌<◌, ◌≤◌, length};
ghost use Rattle.pairs.specs.Keys.{width_of, key_of, looked_at};
ghost use Rattle.pairs.specs.Walks.{Keyed};

// How many bytes of a record its key has. (A value and no type: callers of `first_repeated` and `earlier` give it so.)
#[derive(Clone, Copy, Debug, PartialEq, Eq)]
pub enum Key {
    Four,
    Eight,
}

// The most records that are looked at.
pub const MOST: usize = 4_096;

// 2^32.
pub(crate) const WORD: u64 = 4_294_967_296;

// The key of a record's bytes.
fn key_of(r: &[u8], key: Key) -> u64
    requires { width_of key ≤ length r.now }
    ensures { result ≡ key_of key r.now }
{
    match key {
        Key::Four => u64::from(u32::from_le_bytes([r[0], r[1], r[2], r[3]])),
        Key::Eight => u64::from_le_bytes([r[0], r[1], r[2], r[3], r[4], r[5], r[6], r[7]]),
    }
}

fn width(key: Key) -> usize
    ensures { result ≡ width_of key }
{
    match key {
        Key::Four => 4,
        Key::Eight => 8,
    }
}

// How many records are looked at.
pub(crate) fn looked_at(bytes: &[u8], size: usize, key: Key) -> usize
    ensures { result ≡ looked_at key size bytes.now }
{
    if size < width(key) {
        0
    } else {
        MOST.min(bytes.len() / size)
    }
}

// The records that are looked at: the first n of a list, of which each has a key.
#[derive(Clone, Copy)]
pub(crate) struct Records<'a> {
    pub(crate) bytes: &'a [u8],
    pub(crate) size: usize,
    pub(crate) key: Key,
    pub(crate) n: usize,
    pub(crate) ghost keyed: { Keyed key size bytes.now n },
}

impl Records<'_> {
    ghost use Rattle.pairs.specs.Records.{keys_of};

    // The key of record i.
    pub(crate) fn key_at(&self, i: usize) -> u64
        requires { i < self.now.n }
        ensures { result ≡ keys_of self.now i }
    {
        let at = self.size * i;
        let end = at + self.size;
        key_of(&self.bytes[at..end], self.key)
    }

    // The same records, where the width of their keys is known.
    pub(crate) fn of_width(&self, key: Key) -> Self
        requires { key ≡ self.now.key }
        ensures { (keys_of result ≡ keys_of self.now) × (result.n ≡ self.now.n) }
    {
        Records {
            bytes: self.bytes,
            size: self.size,
            key,
            n: self.n,
        }
    }
}
