// The first record that repeats an earlier one: by sifting, and of a handful by every pair.
ghost use Rattle.std.specs.Prelude.{◌≡◌, ◌≤◌, length};
ghost use Rattle.numbers.specs.Folds.{first, repeating};
ghost use Rattle.pairs.specs.Keys.{looked_at, most, same_key_in};
ghost use Rattle.pairs.specs.Records.{keys_of, same_in};
ghost use Rattle.pairs.specs.Walks.{Zeros};
ghost use Rattle.pairs.specs.Indices.{FirstOf};
ghost use Rattle.pairs.specs.Sifting.{Places, RoomFor, Sixteenth, Tries};

use crate::keys::{Key, MOST, Records, looked_at};
use crate::pairwise::first_by_pairs;
use crate::sift::sift_all;

// So many records are a handful: an array would not be worth while.
const HANDFUL: usize = 8;

// Arrays for at most SMALL, SHORT, MIDDLE, LARGE and MOST records: a short list pays for no long array.
const SMALL: usize = 32;

const SHORT: usize = 128;

const MIDDLE: usize = 512;

const LARGE: usize = 1_024;

// Eight places for each record, or four, so that few records are left; and by how many bits a number of 32 is shifted to choose one.
const SMALL_PLACES: usize = 8 * SMALL;

const SMALL_SHIFT: u32 = 24;

const SHORT_PLACES: usize = 8 * SHORT;

const SHORT_SHIFT: u32 = 22;

const MIDDLE_PLACES: usize = 8 * MIDDLE;

const MIDDLE_SHIFT: u32 = 20;

const LARGE_PLACES: usize = 8 * LARGE;

const LARGE_SHIFT: u32 = 19;

const MOST_PLACES: usize = 4 * MOST;

const MOST_SHIFT: u32 = 18;

// The first record that repeats an earlier one, or the number of all, where none is left of sifting.
fn first_in(records: &Records<'_>, list: &mut [u16], place: &mut [u16], shift: u32) -> Option<usize>
    requires { (length list.old ≡ records.now.n) × (Places shift place.old) × (Zeros place.old) × Sixteenth shift place.old }
    ensures { Tries (FirstOf (keys_of records.now) (λ u. u) records.now.n records.now.n) result }
{
    let s = sift_all(records, list, place, shift)?;
    (s.left == 0).then_some(records.n.min(s.found))
}

// The same with arrays for at most LIST records.
fn first_sized<const LIST: usize, const PLACES: usize>(
    records: &Records<'_>,
    shift: u32,
) -> Option<usize>
    requires { (records.now.n ≤ LIST) × (LIST ≤ most) × RoomFor shift PLACES }
    ensures { Tries (FirstOf (keys_of records.now) (λ u. u) records.now.n records.now.n) result }
{
    let mut list = [0u16; LIST];
    let mut place = [0u16; PLACES];
    first_in(records, &mut list[..records.n], &mut place, shift)
}

// The same with the shortest arrays that will do.
fn first_sifted(records: &Records<'_>) -> Option<usize>
    ensures { Tries (FirstOf (keys_of records.now) (λ u. u) records.now.n records.now.n) result }
{
    if records.n <= SMALL {
        first_sized::<SMALL, SMALL_PLACES>(records, SMALL_SHIFT)
    } else if records.n <= SHORT {
        first_sized::<SHORT, SHORT_PLACES>(records, SHORT_SHIFT)
    } else if records.n <= MIDDLE {
        first_sized::<MIDDLE, MIDDLE_PLACES>(records, MIDDLE_SHIFT)
    } else if records.n <= LARGE {
        first_sized::<LARGE, LARGE_PLACES>(records, LARGE_SHIFT)
    } else {
        first_sized::<MOST, MOST_PLACES>(records, MOST_SHIFT)
    }
}

// The first that has the key of an earlier one. That sifting always answers is not proved, and nothing but the time depends on it.
fn first_of(records: &Records<'_>) -> Option<usize>
    ensures { result ≡ first (repeating (same_in records.now)) records.now.n }
{
    if HANDFUL < records.n {
        if let Some(i) = first_sifted(records) {
            return (i < records.n).then_some(i);
        }
    }
    first_by_pairs(records)
}

// The first record that has the key of an earlier one. Records after the first MOST are not looked at, and none where a record is shorter
// than its key.
pub fn first_repeated(records: &[u8], size: usize, key: Key) -> Option<usize>
    ensures { result ≡ first (repeating (same_key_in key size records.now)) (looked_at key size records.now) }
{
    first_of(&Records {
        bytes: records,
        size,
        key,
        n: looked_at(records, size, key),
    })
}
