// The changes in value of the marks. A bond's value is a long chain of multiplications, so that several run side by side sooner than one
// after the other: a bond's mark is valued together with later ones of its product.
ghost use Rattle.std.specs.Prelude.{◌≡◌, true, false, ◌<◌, ◌≤◌, pos, ◌-ℤ◌, length, replicate};
ghost use Rattle.numbers.specs.Folds.{Filled};
ghost use Rattle.dayfile.specs.Limits.{file_limits};
ghost use Rattle.dayfile.specs.Records.{marks_in, corrections_in};
ghost use Rattle.pricing.specs.Sizes.{value_cap};
ghost use Rattle.pricing.specs.Calls.{lanes};
ghost use Rattle.settlement.specs.ContractValue.{value_or_zero};
ghost use Rattle.settlement.specs.Prices.{final_of, change_of};
ghost use Rattle.settlement.specs.SettlingSteps.{blank, changes_of};
ghost use Rattle.settlement.specs.Groups.{group_size, alike_in, Grouped, InFile, Capped, last_of, lane_price, lanes_change, set_all, Works};

use crate::prices::finals;
use checks::Marks;
use dayfile::{DayFile, mark_at, mark_count};
use pricing::{LANES, value_or_zero, values_or_zero};
use products::{Code, is_bond, same_code};
use std::array::from_fn;

// The difference of two values. (`as`: values are proved to fit, and `try_from` would test it again.)
fn difference(a: u64, b: u64) -> i64
    requires { (a ≤ value_cap) × (b ≤ value_cap) }
    ensures { result ≡ pos a -ℤ pos b }
{
    (a as i64) - (b as i64)
}

// How many marks are valued side by side, at two prices each.
const GROUP: usize = 4;

// Whether two marks are of the same product.
fn alike(marks: &[u8], i: usize, j: usize) -> bool
    ensures { result ≡ alike_in (marks_in marks.now) i j }
{
    same_code(mark_at(marks, i).code, mark_at(marks, j).code)
}

// Marks that are valued side by side.
#[derive(Clone, Copy)]
struct Group {
    marks: [usize; GROUP],
    ghost in_file: { InFile marks },
}

impl Group {
    // A mark and up to three later ones of its product that are not worked yet. The mark itself stands in the places that are left.
    fn of(marks: Marks<'_>, done: &[bool; DayFile::MAX_MARKS], i: usize) -> Group
        requires { i < length (marks_in marks.bytes.now) }
        ensures { Grouped (marks_in marks.entry.bytes.now) (length (marks_in marks.entry.bytes.now)) i result.marks }
    {
        let mut g = [i; GROUP];
        let mut count = 1;
        for j in i + 1..mark_count(marks.bytes) {
            if count == GROUP {
                break;
            }
            if !done[j] && alike(marks.bytes, j, i) {
                g[count] = j;
                count += 1;
            }
        }
        Group { marks: g }
    }
}

// The change in value of one contract between two prices. (`change` has the same two calls for itself, so that the compiler takes
// them into the loop over the marks.)
pub(crate) fn change_between(code: Code, last: u32, previous: u32) -> i64
    ensures { result ≡ pos (value_or_zero code last) -ℤ pos (value_or_zero code previous) }
{
    difference(value_or_zero(code, last), value_or_zero(code, previous))
}

// The marks, and the final price of each.
#[derive(Clone, Copy)]
struct FinalPrices<'a> {
    marks: Marks<'a>,
    last: &'a [u32; DayFile::MAX_MARKS],
}

impl FinalPrices<'_> {
    // The price of a lane: the final prices of a group's marks, then their previous ones.
    fn lane_price(self, g: Group, k: usize) -> u32
        requires { k < lanes }
        ensures { result ≡ lane_price (marks_in self.entry.marks.bytes.now) self.entry.last.now g.marks k }
    {
        if k < GROUP {
            self.last[g.marks[k]]
        } else {
            mark_at(self.marks.bytes, g.marks[k - GROUP]).previous
        }
    }

    // The prices of all lanes.
    fn lane_prices(self, g: Group) -> [u32; LANES]
        ensures { Filled 0 (lane_price (marks_in self.entry.marks.bytes.now) self.entry.last.now g.marks) lanes result }
    {
        from_fn(|k| self.lane_price(g, k))
    }

    // The change in value of one mark.
    fn change(self, i: usize) -> i64
        requires { i < file_limits.marks }
        ensures { result ≡ change_of (marks_in self.entry.marks.bytes.now) (last_of self.entry.last.now) i }
    {
        let m = mark_at(self.marks.bytes, i);
        let last = value_or_zero(m.code, self.last[i]);
        let previous = value_or_zero(m.code, m.previous);
        difference(last, previous)
    }
}

// The changes in value of the marks, as far as they are worked, and which of them are done.
#[derive(Clone, Copy, Debug)]
pub(crate) struct Changes {
    pub change: [i64; DayFile::MAX_MARKS],
    done: [bool; DayFile::MAX_MARKS],
}

impl Changes {
    // Writes the changes of a group.
    fn write_group(&mut self, g: Group, v: [u64; LANES])
        requires { Capped v }
        ensures changes { self.new.change ≡ set_all group_size g.marks (lanes_change v) self.old.change }
        ensures flags { self.new.done ≡ set_all group_size g.marks (λ k. true) self.old.done }
    {
        for k in 0..GROUP {
            let m = g.marks[k];
            self.change[m] = difference(v[k], v[k + GROUP]);
            self.done[m] = true;
        }
    }

    // Works the changes of a mark and of those that go with it.
    fn work_group(&mut self, prices: FinalPrices<'_>, i: usize, g: Group)
        requires { Grouped (marks_in prices.marks.bytes.now) (length (marks_in prices.marks.bytes.now)) i g.marks }
        ensures { Works (changes_of (marks_in prices.entry.marks.bytes.now) (last_of prices.entry.last.now)) i
            self.old.change self.old.done self.new.change self.new.done }
    {
        let p = prices.lane_prices(g);
        let v = values_or_zero(mark_at(prices.marks.bytes, i).code, p);
        self.write_group(g, v);
    }

    // Works the change of a mark that is not done, a bond with others of its product if there are any.
    fn work(&mut self, prices: FinalPrices<'_>, i: usize)
        requires { i < length (marks_in prices.marks.bytes.now) }
        ensures { Works (changes_of (marks_in prices.entry.marks.bytes.now) (last_of prices.entry.last.now)) i
            self.old.change self.old.done self.new.change self.new.done }
    {
        if self.done[i] {
            return;
        }
        if is_bond(mark_at(prices.marks.bytes, i).code) {
            let g = Group::of(prices.marks, &self.done, i);
            if g.marks[1] != i {
                self.work_group(prices, i, g);
                return;
            }
        }
        self.change[i] = prices.change(i);
    }

    // No change yet, and no mark that is done.
    pub(crate) fn none() -> Changes
        ensures { (result.change ≡ blank) × (result.done ≡ replicate file_limits.marks false) }
    {
        Changes {
            change: [0; DayFile::MAX_MARKS],
            done: [false; DayFile::MAX_MARKS],
        }
    }

    // Works the changes in value of all marks.
    pub(crate) fn work_all(&mut self, marks: Marks<'_>, corrections: &[u8])
        requires { (self.old.change ≡ blank) × (self.old.done ≡ replicate file_limits.marks false) }
        ensures { self.new.change ≡ changes_of (marks_in marks.entry.bytes.now)
            (final_of (marks_in marks.entry.bytes.now) (corrections_in corrections.now)) }
    {
        let mut last = [0; DayFile::MAX_MARKS];
        finals(marks, corrections, &mut last);
        let prices = FinalPrices { marks, last: &last };
        for i in 0..mark_count(marks.bytes) {
            self.work(prices, i);
        }
    }
}
