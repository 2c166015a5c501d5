// The last earlier record with the key of a record. The first record of each key stands in a tree, and beside it is kept the last record
// with this key. The walk of a key starts at a root, and from a record with another key it goes on to one of the two places below that one.
//
// Of a key 32 bits are made: its lower half times an odd number, plus its upper half times another, modulo 2^32. The highest of them choose
// the root. Then 64 bits lead the walk, one at each record: the 32, the lowest first, and after them those of the upper half. The 64
// determine the key: take the upper half's product away, and undo the other, as can be done modulo 2^32 where the factor is odd. So two
// different keys part after at most 64 records: no walk goes past more, whatever the keys are and however many roots there are.
//
// The upper half of a key of four bytes is 0, and the 32 bits determine it. Those that chose the root are the same for all keys that start
// there, so that two keys differ in one of the others, which lead first: a walk goes past at most 27 records where there are 32 roots, past
// 23 where there are 512, and past 20 where there are 4,096.
//
// All stands in lent arrays of fixed length, since nothing here allocates; an entry is 0 or one more than an index, in two bytes, where an
// Option would take four.
ghost use Rattle.std.specs.Prelude.{◌≡◌, ◌+◌, ◌*◌, ◌<◌, ◌≤◌, length};
ghost use Rattle.numbers.specs.Folds.{front};
ghost use Rattle.pairs.specs.Keys.{word, most, least, looked_at, earlier_in};
ghost use Rattle.pairs.specs.Trees.{node_of, WalkOf, Grown};
ghost use Rattle.pairs.specs.Records.{keys_of, earlier_of};
ghost use Rattle.pairs.specs.Walks.{scattered, root_of, rest_of, tree_of, Room, Zeros};

use crate::keys::{Key, MOST, Records, WORD, looked_at};

// A tree for at most SMALL, at most MIDDLE or at most MOST records: a short list pays for no long array.
const SMALL: usize = 32;

const MIDDLE: usize = 512;

// As many roots, and two places below each record.
const SMALL_PLACES: usize = 3 * SMALL;

const MIDDLE_PLACES: usize = 3 * MIDDLE;

const MOST_PLACES: usize = 3 * MOST;

// Two odd factors, of a key's lower half and of its upper half.
const LOWER: u64 = 2_654_435_761;

const UPPER: u64 = 2_246_822_519;

// 32 bits of a key.
fn scatter(x: u64) -> u64
    ensures { (result ≡ scattered x) × (result < word) }
{
    let low = x % WORD * LOWER % WORD;
    let high = x / WORD * UPPER % WORD;
    (low + high) % WORD
}

// The root where the walk of a key starts.
fn root_of(x: u64, roots: usize) -> usize
    requires { (0 < roots) × (roots ≤ 4 * most) }
    ensures { (result ≡ root_of roots x) × (result < roots) }
{
    (scatter(x) * (roots as u64) / WORD) as usize
}

// The number whose bits lead it on.
fn rest_of(x: u64) -> u64
    ensures { result ≡ rest_of x }
{
    scatter(x) + WORD * (x / WORD)
}

// The place where the walk of record i ends: it is empty, or holds the first record with the same key.
fn walk(records: &Records<'_>, place: &[u16], roots: usize, i: usize) -> usize
    requires { (i < records.now.n) × (Grown (tree_of (keys_of records.now) roots) i place.now)
        × Room roots (length place.now) (i + 1) }
    ensures { (WalkOf (tree_of (keys_of records.now) roots) place.now i result) × (result < roots + 2 * i) }
{
    let x = records.key_at(i);
    let mut rest = rest_of(x);
    let mut at = root_of(x, roots);
    let mut k = usize::from(place[at]);
    // A while: the walk goes from place to place, and no index counts its steps.
    while k != 0 {
        let j = k - 1;
        if records.key_at(j) == x {
            return at;
        }
        at = roots + 2 * j + (rest % 2) as usize;
        rest = rest / 2;
        k = usize::from(place[at]);
    }
    at
}

// The record that a place holds, or i where it is empty.
fn node(k: usize, i: usize) -> usize
    requires { k ≤ i }
    ensures { (result ≡ node_of k i) × (result ≤ i) }
{
    if k == 0 { i } else { k - 1 }
}

// For each of n records, one more than the index of the last earlier one with its key, or 0, by a tree whose places are empty. Beside each
// record of the tree, last has one more than the index of the last one with its key.
fn earlier_in(
    records: &Records<'_>,
    roots: usize,
    place: &mut [u16],
    last: &mut [u16],
    found: &mut [u16],
)
    requires { (Room roots (length place.old) records.now.n) × Zeros place.old × Zeros last.old
        × (records.now.n ≤ length last.old) × (records.now.n ≤ length found.old) }
    ensures { found.new ≡ front (earlier_of records.now) found.old records.now.n }
{
    // A copy, of which a processor keeps the parts in registers: without it this takes 1.2 to 1.6 times as long.
    let records = *records;
    for i in 0..records.n {
        let at = walk(&records, place, roots, i);
        let j = node(usize::from(place[at]), i);
        let first = j + 1;
        place[at] = first as u16;
        found[i] = last[j];
        last[j] = (i + 1) as u16;
    }
}

// The same of at most N records: as many roots, and two places below each record.
fn earlier_sized<const N: usize, const PLACES: usize>(records: &Records<'_>, found: &mut [u16])
    requires { (records.now.n ≤ length found.old) × (records.now.n ≤ N) × (0 < N) × (N ≤ most) × (PLACES ≡ 3 * N) }
    ensures { found.new ≡ front (earlier_of records.now) found.old records.now.n }
{
    let mut place = [0u16; PLACES];
    let mut last = [0u16; N];
    earlier_in(records, N, &mut place, &mut last, found);
}

// The same by the shortest arrays that will do.
fn earlier_among(records: &Records<'_>, found: &mut [u16])
    requires { records.now.n ≤ length found.old }
    ensures { found.new ≡ front (earlier_of records.now) found.old records.now.n }
{
    if records.n <= SMALL {
        earlier_sized::<SMALL, SMALL_PLACES>(records, found);
    } else if records.n <= MIDDLE {
        earlier_sized::<MIDDLE, MIDDLE_PLACES>(records, found);
    } else {
        earlier_sized::<MOST, MOST_PLACES>(records, found);
    }
}

// For each record, one more than the index of the last earlier one with its key, or 0, in the first places of a lent slice. Records after
// the first MOST are not looked at, nor those for which the slice has no place, and none where a record is shorter than its key.
pub fn earlier(records: &[u8], size: usize, key: Key, found: &mut [u16])
    ensures { found.new
        ≡ front (earlier_in key size records.now) found.old
        (least (looked_at key size records.now) (length found.old)) }
{
    earlier_among(
        &Records {
            bytes: records,
            size,
            key,
            n: looked_at(records, size, key).min(found.len()),
        },
        found,
    );
}
