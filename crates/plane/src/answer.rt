// What a call answers: its value, or why it declines.
ghost use Rattle.std.specs.Prelude.{◌≡◌};
ghost use Rattle.plane.specs.Refusal.{refusal_of, done_for, refusal_of_answer};
ghost use Rattle.plane.specs.steps.Judged.{tests_of};

// Why a call declines. Each variant has a number, by which C and the programs name it.
#[derive(Clone, Copy, Debug, PartialEq, Eq)]
pub enum Refusal {
    // 1: a side is not from 1 to the largest side.
    Sides,
    // 2: what is read has not the length that the sides ask for.
    Inputs,
    // 3: an output has not that length, or a work buffer is too short.
    Outputs,
    // 4: a colour is not from 0 to 1.
    Colours,
    // 5: the tolerance is no finite number.
    Tolerance,
    // 6: no alpha reaches the threshold.
    Alpha,
    // 7: the part of a row is empty or outside the plane.
    Part,
    // 8: a file has no header.
    Header,
    // 9: a file is not as long as its header says.
    FileLength,
    // 10: a file has more pixels than are taken.
    Pixels,
    // 11: a text names no card's colour.
    CardColour,
}

impl From<Refusal> for u32 {
    ghost use Rattle.plane.specs.Refusal.{number_of};

    ghost from_gives = { λ r n. n ≡ number_of r };

    fn from(refusal: Refusal) -> u32 {
        match refusal {
            Refusal::Sides => 1,
            Refusal::Inputs => 2,
            Refusal::Outputs => 3,
            Refusal::Colours => 4,
            Refusal::Tolerance => 5,
            Refusal::Alpha => 6,
            Refusal::Part => 7,
            Refusal::Header => 8,
            Refusal::FileLength => 9,
            Refusal::Pixels => 10,
            Refusal::CardColour => 11,
        }
    }
}

// The number of an answer, as C and the programs hand it on: 0 where the call was accepted.
pub fn refusal_of<T: Drop>(answer: Result<T, Refusal>) -> u32
    ensures { result ≡ refusal_of_answer answer }
{
    match answer {
        Ok(_) => 0,
        Err(refusal) => u32::from(refusal),
    }
}

// Tests in order, each with the refusal of a call that fails it: what the first that fails declines by.
pub fn judge(tests: &[(bool, Refusal)]) -> Result<(), Refusal>
    ensures { result ≡ done_for (refusal_of (tests_of tests.now)) }
{
    for (holds, refusal) in tests {
        if !*holds {
            return Err(*refusal);
        }
    }
    Ok(())
}
