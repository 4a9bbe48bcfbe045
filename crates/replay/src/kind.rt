// The kinds of cases.
ghost use Rattle.std.specs.Prelude.{◌≡◌};
ghost use Rattle.replay.specs.steps.Kind.{kind_of};

// What a case asks for.
#[derive(Clone, Copy, Debug, PartialEq, Eq)]
pub enum Kind {
    Labels,
    Squares,
    Nearest,
    Ground,
    Cut,
    Pair,
    Following,
}

impl Kind {
    // The kind that the first byte of a line names. There is one for every byte: what is no letter of a kind is a cut.
    pub(crate) fn of(byte: u8) -> Self
        ensures { result ≡ kind_of byte }
    {
        match byte {
            b'L' => Kind::Labels,
            b'S' => Kind::Squares,
            b'N' => Kind::Nearest,
            b'G' | b'g' => Kind::Ground,
            b'P' | b'p' => Kind::Pair,
            b'F' | b'f' => Kind::Following,
            _ => Kind::Cut,
        }
    }
}
