// Sifting a list of records, by the two places that each has. All records with one key have the same places: so of those that are left none
// repeats one that stayed, and they can be sifted anew by other places, until none is left.
//
// Places, list and how far a number is shifted to choose a place are lent side by side: a struct of them would be taken apart and built anew
// wherever a part of the places or of the list is lent on, and what is asked of them is of two of the three together.
ghost use Rattle.std.specs.Prelude.{◌≡◌, ◌<◌, ◌≤◌, length};
ghost use Rattle.pairs.specs.Keys.{most};
ghost use Rattle.pairs.specs.Records.{keys_of};
ghost use Rattle.pairs.specs.Walks.{Zeros};
ghost use Rattle.pairs.specs.Indices.{at, Rising};
ghost use Rattle.pairs.specs.Sifting.{SiftsTo, listed, Next, Places, Sixteenth};

use crate::keys::{Key, Records};
use crate::lists::list_all;
use crate::places::{Step, try_both};
use crate::seeds::seed_of;

// So often at most.
const TURNS: u64 = 16;

// The first record that repeats another, or the number of all; and how many are left, which the list has.
#[derive(Clone, Copy, Debug, PartialEq, Eq)]
pub struct Sifted {
    pub found: usize,
    pub left: usize,
}

// The record at t of those that are listed, or where none is listed yet of all.
fn nth<const LISTED: bool>(list: &[u16], t: usize) -> usize
    requires { t < length list.now }
    ensures { result ≡ listed LISTED list.now t }
{
    if LISTED { usize::from(list[t]) } else { t }
}

// Sifts by places that are empty as many records as the list has places: those that are listed, by a seed; or where none is listed yet the
// first, by their keys, and then it gives up where many of their first third are left. The list then begins with those that are left. The
// width of keys is known where this is inlined.
#[inline(always)]
fn sift_by_one<const LISTED: bool>(
    records: &Records<'_>,
    list: &mut [u16],
    seed: Option<u64>,
    place: &mut [u16],
    shift: u32,
) -> Option<Sifted>
    requires { (Rising records.now.n (length list.old) (listed LISTED list.old)) × (length list.old ≤ records.now.n) × (Places shift place.old)
        × Zeros place.old }
    ensures { SiftsTo (keys_of records.now) records.now.n (length list.old) (listed LISTED list.old) list.new result }
{
    // A copy, of which a processor keeps the parts in registers.
    let records = *records;
    let early = if LISTED { 0 } else { list.len() / 3 };
    let mut left = 0;
    for t in 0..list.len() {
        let i = nth::<LISTED>(list, t);
        match try_both(&records, i, seed, place, shift, list, left, t, early) {
            Step::Repeated => {
                return Some(Sifted { found: i, left });
            }
            Step::GivenUp => {
                return None;
            }
            Step::Left(more) => {
                left = more;
            }
        }
    }
    Some(Sifted {
        found: records.n,
        left,
    })
}

// Sifts them with a loop of its own for each width of keys: one that asks for the width of each takes 1.2 to 1.5 times as long.
fn sift<const LISTED: bool>(
    records: &Records<'_>,
    list: &mut [u16],
    seed: Option<u64>,
    place: &mut [u16],
    shift: u32,
) -> Option<Sifted>
    requires { (Rising records.now.n (length list.old) (listed LISTED list.old)) × (length list.old ≤ records.now.n) × (Places shift place.old)
        × Zeros place.old }
    ensures { SiftsTo (keys_of records.now) records.now.n (length list.old) (listed LISTED list.old) list.new result }
{
    match records.key {
        Key::Four => sift_by_one::<LISTED>(&records.of_width(Key::Four), list, seed, place, shift),
        Key::Eight => sift_by_one::<LISTED>(
            &records.of_width(Key::Eight),
            list,
            seed,
            place,
            shift,
        ),
    }
}

// Sifts those that are listed, by places that are cleared before.
fn sift_cleared(
    records: &Records<'_>,
    list: &mut [u16],
    seed: u64,
    place: &mut [u16],
    shift: u32,
) -> Option<Sifted>
    requires { (Rising records.now.n (length list.old) (at list.old)) × (length list.old ≤ records.now.n) × Places shift place.old }
    ensures { SiftsTo (keys_of records.now) records.now.n (length list.old) (at list.old) list.new result }
{
    place.fill(0);
    sift::<true>(records, list, Some(seed), place, shift)
}

// Sifts them by a seed that their keys make: few of them by a sixteenth of the places.
fn sift_anew(
    records: &Records<'_>,
    list: &mut [u16],
    turn: u64,
    place: &mut [u16],
    shift: u32,
) -> Option<Sifted>
    requires { (Rising records.now.n (length list.old) (at list.old)) × (length list.old ≤ records.now.n) × (Places shift place.old)
        × Sixteenth shift place.old }
    ensures { SiftsTo (keys_of records.now) records.now.n (length list.old) (at list.old) list.new result }
{
    let seed = seed_of(records, list, turn);
    if list.len() <= records.n / 16 {
        let few = place.len() / 16;
        return sift_cleared(records, list, seed, &mut place[..few], shift + 4);
    }
    sift_cleared(records, list, seed, place, shift)
}

// What is to be sifted next: those that are left, or all again where it gave up.
fn to_sift(list: &mut [u16], s: Option<Sifted>) -> Sifted
    requires { length list.old ≤ most }
    ensures { Next (length list.old) list.old s list.new result }
{
    if let Some(s) = s {
        return s;
    }
    list_all(list);
    Sifted {
        found: list.len(),
        left: list.len(),
    }
}

// Sifts all records, and then what is left of them by another seed in each turn.
pub(crate) fn sift_all(
    records: &Records<'_>,
    list: &mut [u16],
    place: &mut [u16],
    shift: u32,
) -> Option<Sifted>
    requires { (length list.old ≡ records.now.n) × (Places shift place.old) × (Zeros place.old) × Sixteenth shift place.old }
    ensures { SiftsTo (keys_of records.now) records.now.n records.now.n (λ u. u) list.new result }
{
    let mut s = sift::<false>(records, list, None, place, shift);
    for turn in 0..TURNS {
        if s.is_some_and(|s| s.left == 0) {
            break;
        }
        let all = to_sift(list, s);
        s = sift_anew(records, &mut list[..all.left], turn, place, shift).map(|anew| Sifted {
            found: anew.found.min(all.found),
            left: anew.left,
        });
    }
    s
}
