// Which numbered conditions are looked at.
ghost use Rattle.std.specs.Prelude.{◌≡◌};
ghost use Rattle.numbers.specs.Order.{takes};

// All conditions, or the one with a number. (No Option: it would say None where all are looked at.)
#[derive(Clone, Copy, Debug, PartialEq, Eq)]
pub enum Wanted {
    All,
    One(u32),
}

impl Wanted {
    // Whether the condition with this number is looked at.
    pub fn takes(self, number: u32) -> bool
        ensures { result ≡ takes self number }
    {
        match self {
            Wanted::All => true,
            Wanted::One(k) => k == number,
        }
    }
}
