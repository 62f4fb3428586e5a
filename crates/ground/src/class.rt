// The site classes (document 02, S-2).
ghost use Rattle.std.specs.Prelude.{◌≡◌, ◌+◌, ◌<◌};
ghost use Rattle.ground.specs.Class.{letter_of, Classed};

use fields::Refusal;

#[derive(Clone, Copy, Debug, PartialEq, Eq)]
pub(crate) enum SiteClass {
    A,
    B,
    C,
    D,
    E,
}

// By its capital letter. Refused: 41.
impl TryFrom<u8> for SiteClass {
    type Error = Refusal;

    ghost try_from_gives = { Classed };

    fn try_from(letter: u8) -> Result<Self, Refusal> {
        match letter {
            b'A' => Ok(SiteClass::A),
            b'B' => Ok(SiteClass::B),
            b'C' => Ok(SiteClass::C),
            b'D' => Ok(SiteClass::D),
            b'E' => Ok(SiteClass::E),
            _ => Err(Refusal::BadSiteClass),
        }
    }
}

impl SiteClass {
    // Its row of a chart: its number among the variants, which no From gives.
    pub(crate) fn row(self) -> usize
        ensures value { letter_of self ≡ 65 + result }
        ensures upper_bound { result < 5 }
    {
        self as usize
    }
}
