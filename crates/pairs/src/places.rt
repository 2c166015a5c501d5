// The two places of a record, by its key, and what comes of its try there: it stays at the first of them that is empty, or repeats the
// record that has its key there, or is left where other keys are at both.
ghost use Rattle.std.specs.Prelude.{◌≡◌, ◌/◌, ◌<◌, ◌≤◌, length};
ghost use Rattle.pairs.specs.Keys.{most, word};
ghost use Rattle.pairs.specs.Records.{keys_of};
ghost use Rattle.pairs.specs.Sifting.{place_of, first_place, second_place, stirred_by, Places, Held, Another, TriedAt, TriedSecond, kept, more, Puts, TriedBoth};

use crate::keys::{Records, WORD};

// Two odd factors, of a key's lower half and of its upper half. With these, records in which every account holds every mark leave few, in
// nearly all files of that kind that were tried.
const LOWER: u64 = 2_654_435_761;

const UPPER: u64 = 1_973_900_851;

// And two more, by which they are stirred.
const LOW: u64 = 2_246_822_519;

const HIGH: u64 = 3_266_489_917;

// The place of a key: of its lower half times a number and its upper half times another, added, the highest of 32 bits.
fn place_of(x: u64, lower: u64, upper: u64, shift: u32) -> usize
    requires { (lower < word) × (upper < word) × (shift < 64) }
    ensures { result ≡ place_of lower upper shift x }
{
    let low = x % WORD * lower % WORD;
    let high = x / WORD * upper % WORD;
    ((low + high) % WORD >> shift) as usize
}

// What a key's places are made of: the key, or where a list is sifted anew, two multiples of its halves after a seed has changed some of its
// bits. Their higher bits change the lower ones, so that what is alike in keys, as equal steps from one to the next, is not alike any more.
fn stirred(x: u64, seed: Option<u64>) -> u64
    ensures { result ≡ stirred_by seed x }
{
    if let Some(seed) = seed {
        let y = x ^ seed;
        let z = (y % WORD * LOW) ^ (y / WORD * HIGH);
        z ^ (z >> 29)
    } else {
        x
    }
}

// What comes of a record's try at a place: it stays there, or repeats the record that is there, or that one has another key.
#[derive(Clone, Copy, Debug, PartialEq, Eq)]
pub enum Placed {
    Stays,
    Repeats,
    Differs,
}

// Lets record i, whose key is x, try its first place.
fn try_at(records: &Records<'_>, place: &mut [u16], spot: usize, i: usize, x: u64) -> Placed
    requires { (Held records.now.n place.old) × (spot < length place.old) × (i < most) }
    ensures { TriedAt (keys_of records.now) place.old spot i x place.new result }
{
    let held = usize::from(place[spot]);
    if held == 0 {
        place[spot] = (i + 1) as u16;
        return Placed::Stays;
    }
    if records.key_at(held - 1) == x {
        return Placed::Repeats;
    }
    Placed::Differs
}

// What a place has, or where it is empty what another has. An entry is 0 or one more than an index, in two bytes, where an Option would take
// four.
fn held_at(held: usize, other: usize) -> usize
    ensures { result ≡ kept held other }
{
    if held == 0 { other } else { held }
}

// Whether the record at a second place has key x, where the one at the first has another. An empty place is answered by the first: so
// there is one comparison, whatever the place has, and no branch that a processor would have to guess.
fn repeats_at(records: &Records<'_>, place: &[u16], first: usize, second: usize, x: u64) -> bool
    requires { (Held records.now.n place.now) × (first < length place.now) × (second < length place.now)
        × Another (keys_of records.now) place.now first x }
    ensures { TriedSecond (keys_of records.now) place.now second x result }
{
    let held = held_at(usize::from(place[second]), usize::from(place[first]));
    records.key_at(held - 1) == x
}

// One more where a place is taken.
fn one_more(left: usize, held: usize) -> usize
    requires { left ≤ most }
    ensures { result ≡ more left held }
{
    if held == 0 { left } else { left + 1 }
}

// Record i stays at an empty place, or comes to the end of those that are left. Both are written either way: no branch here too.
fn stay_or_list(place: &mut [u16], spot: usize, i: usize, list: &mut [u16], left: usize) -> usize
    requires { (spot < length place.old) × (left < length list.old) × (left < most) × (i < most) × (Held most place.old) }
    ensures { Puts place.old spot i list.old left place.new list.new result }
{
    let held = usize::from(place[spot]);
    place[spot] = held_at(held, i + 1) as u16;
    list[left] = i as u16;
    one_more(left, held)
}

// Whether to give up at record t: many are left among the first ones, so that it takes less time to sift all anew. No answer depends on it.
fn gives_up(left: usize, t: usize, early: usize) -> bool
    ensures { Unit {0} }
{
    (48 < left) & (t < early)
}

// What comes of a record: it repeats another; or too many are left; or so many are.
#[derive(Clone, Copy, Debug, PartialEq, Eq)]
pub enum Step {
    Repeated,
    GivenUp,
    Left(usize),
}

// Lets record i try its two places, the one at t of those that are sifted; for the second place the two factors change their parts. How
// many are left stands beside the list, which is a lent array, since nothing here allocates.
pub(crate) fn try_both(
    records: &Records<'_>,
    i: usize,
    seed: Option<u64>,
    place: &mut [u16],
    shift: u32,
    list: &mut [u16],
    left: usize,
    t: usize,
    early: usize,
) -> Step
    requires { (i < records.now.n) × (Held records.now.n place.old) × (Places shift place.old) × (left < length list.old)
        × (left < most) }
    ensures { TriedBoth (keys_of records.now)
        (λ x. first_place shift (stirred_by seed x)) (λ x. second_place shift (stirred_by seed x))
        place.old list.old left i place.new list.new result }
{
    let x = records.key_at(i);
    let y = stirred(x, seed);
    let first = place_of(y, LOWER, UPPER, shift);
    match try_at(records, place, first, i, x) {
        Placed::Stays => {
            return Step::Left(left);
        }
        Placed::Repeats => {
            return Step::Repeated;
        }
        Placed::Differs => {}
    }
    let second = place_of(y, UPPER, LOWER, shift);
    if repeats_at(records, place, first, second, x) {
        return Step::Repeated;
    }
    if gives_up(left, t, early) {
        return Step::GivenUp;
    }
    Step::Left(stay_or_list(place, second, i, list, left))
}
