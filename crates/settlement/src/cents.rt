// Money in the cents of its own currency. The numbers are seen only here, so that no cents of one currency are added to the other's.
ghost use Rattle.std.specs.Prelude.{◌≡◌, ◌+ℤ◌, pos};
ghost use Rattle.settlement.specs.SettlingSteps.{Addable};

use std::marker::PhantomData;

// Australian dollars.
#[derive(Clone, Copy, Debug, PartialEq, Eq)]
pub struct Aud;

// New Zealand dollars.
#[derive(Clone, Copy, Debug, PartialEq, Eq)]
pub struct Nzd;

// A number of cents of a currency.
#[derive(Clone, Copy, Debug, PartialEq, Eq)]
pub struct Cents<C>(i64, PhantomData<C>);

impl<C> Cents<C> {
    pub(crate) fn of(amount: i64) -> Cents<C>
        ensures { result.0 ≡ amount }
    {
        Cents(amount, PhantomData)
    }

    // A sum and one amount more.
    pub(crate) fn plus(self, amount: Cents<C>) -> Cents<C>
        requires { Addable self.0 amount.0 }
        ensures { result.0 ≡ self.0 +ℤ amount.0 }
    {
        Cents(self.0 + amount.0, PhantomData)
    }

    pub fn cents(self) -> i64
        ensures { result ≡ self.0 }
    {
        self.0
    }
}
