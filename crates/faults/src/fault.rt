// The faults, each with a number. docs/REFUSALS.md has them in words.
ghost use Rattle.faults.specs.Faults.{numbers};

// What is wrong. The comments say where a fault is looked for.
#[derive(Clone, Copy, Debug, PartialEq, Eq, Hash)]
pub enum Fault {
    // 1 to 3, the header of a file; 2 also of lists that stand in no file, 3 of the lists of which a file is made
    ShortFile,
    AboveLimits,
    Layout,
    // 4 to 8, the marks; 4, 6 and 7 also of a code and a price by themselves
    UnlistedCode,
    Date,
    HighPrice,
    OffTick,
    RepeatedMark,
    // 9 to 11, the corrections
    CorrectionMark,
    CorrectionPrice,
    CorrectionClash,
    // 12 and 13, the positions; 12 also of a mark that is asked for
    PositionMark,
    Lots,
    // 14, the lent amounts
    Places,
    // 15, a tick value
    NextPrice,
    // 16, the positions
    RepeatedPosition,
    // 17, the lent buffer
    Room,
}

impl From<Fault> for u32 {
    ghost from_gives = { numbers };

    fn from(fault: Fault) -> u32 {
        match fault {
            Fault::ShortFile => 1,
            Fault::AboveLimits => 2,
            Fault::Layout => 3,
            Fault::UnlistedCode => 4,
            Fault::Date => 5,
            Fault::HighPrice => 6,
            Fault::OffTick => 7,
            Fault::RepeatedMark => 8,
            Fault::CorrectionMark => 9,
            Fault::CorrectionPrice => 10,
            Fault::CorrectionClash => 11,
            Fault::PositionMark => 12,
            Fault::Lots => 13,
            Fault::Places => 14,
            Fault::NextPrice => 15,
            Fault::RepeatedPosition => 16,
            Fault::Room => 17,
        }
    }
}
