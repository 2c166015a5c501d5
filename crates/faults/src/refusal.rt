// A refusal, and how a check comes to one.
ghost use Rattle.std.specs.Prelude.{◌≡◌};
ghost use Rattle.numbers.specs.Order.{Unmet, or_found, sought};
ghost use Rattle.faults.specs.Faults.{number_of, said, at_start};

use crate::fault::Fault;
use numbers::Wanted;

// What is wrong, and the index of the first record where it is; 0 where a fault is no record's.
#[derive(Clone, Copy, Debug, PartialEq, Eq, Hash)]
pub struct Refusal {
    pub fault: Fault,
    pub index: usize,
}

impl From<Fault> for Refusal {
    ghost from_gives = { at_start };

    fn from(fault: Fault) -> Refusal {
        Refusal { fault, index: 0 }
    }
}

impl Fault {
    // Refuses at the record where the fault was found first, if the fault is looked for.
    pub fn refuse(self, wanted: Wanted, found: Option<usize>) -> Result<(), Refusal>
        ensures { said result ≡ or_found Unmet (number_of self) (sought wanted (number_of self) found) }
    {
        match found {
            Some(index) if wanted.takes(u32::from(self)) => Err(Refusal { fault: self, index }),
            _ => Ok(()),
        }
    }
}
