// A product of the table as its values need it: what the calls ask of it after check 4.
ghost use Rattle.std.specs.Prelude.{◌≡◌, ◌≤◌, ℕ};
ghost use Rattle.pricing.specs.Sizes.{Modest, modest_prop};

use crate::contract::check_price;
use crate::ladder::{bracket_of, ladders};
use crate::values::{bill_at, bonds_at, cash_at};
use faults::Fault;
use products::{Code, Terms, lookup};

// The terms and the tick of a line of the table, so small that no step of a value leaves 64 bits.
#[derive(Clone, Copy)]
pub(crate) struct Listed {
    pub(crate) terms: Terms,
    pub(crate) tick: u32,
    ghost modest: { Modest terms } by { modest_prop terms },
    ghost low: { tick ≤ 100 },
}

impl Listed {
    ghost use Rattle.products.specs.Products.{find};
    ghost use Rattle.pricing.specs.Ladder.{bracket};
    ghost use Rattle.pricing.specs.Value.{scale, bond_divisor, value_by};
    ghost use Rattle.pricing.specs.Calls.{Answer, given, said, of_product, at_price, of_bond};
    ghost use Rattle.pricing.specs.Checking.{of_listed};

    // Check 4: the product that a code names.
    pub(crate) fn of(code: Code) -> Result<Listed, Fault>
        ensures { (f : Terms → ℕ → Answer) → of_listed result f ≡ of_product (find code) (λ product. f product.terms product.tick) }
    {
        let product = lookup(code).ok_or(Fault::UnlistedCode)?;
        Ok(Listed {
            terms: product.terms,
            tick: product.tick,
        })
    }

    // The value, after checks 6 and 7. The terms come first, and the code stands where it is called, so that each kind's constants
    // are known where its formula is worked: with the checks before them, once for all three kinds, a bill's value takes 1.7 times as
    // long.
    #[inline(always)]
    pub(crate) fn value(self, p: u32) -> Result<u64, Fault>
        ensures { said result ≡ at_price self.tick p (given (value_by self.terms p)) }
    {
        match self.terms {
            Terms::Bill { face, days } => {
                check_price(self.tick, p)?;
                Ok(bill_at(face, days, p))
            }
            Terms::Bond {
                face,
                coupon,
                halves,
            } => {
                check_price(self.tick, p)?;
                let [v] = bonds_at(face, coupon, halves, [p]);
                Ok(v)
            }
            Terms::CashRate { cents } => {
                check_price(self.tick, p)?;
                Ok(cash_at(cents, p))
            }
        }
    }

    // A bond's bracket, after checks 6 and 7. Other terms are refused as unlisted.
    pub(crate) fn bracket(self, p: u32) -> Result<u64, Fault>
        ensures { said result ≡ of_bond self.terms (λ c n. at_price self.tick p (given (bracket scale c n (bond_divisor p)))) }
    {
        match self.terms {
            Terms::Bond { coupon, halves, .. } => {
                check_price(self.tick, p)?;
                let [last] = ladders(halves, [p]);
                Ok(bracket_of(coupon, last))
            }
            Terms::Bill { .. } | Terms::CashRate { .. } => Err(Fault::UnlistedCode),
        }
    }
}
