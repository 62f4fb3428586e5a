// Whether a check holds, with its use.
ghost use Rattle.std.specs.Prelude.{◌≡◌};
ghost use Rattle.exact.specs.Sides.{Sides};
ghost use Rattle.rules.specs.Verdict.{verdict_of, holds, used, VerdictFor};

// Whether the check holds or falls short, with its use. No Display: the document prints the word alone, the oracle another
// word and the use.
#[derive(Clone, Copy, Debug, PartialEq)]
pub enum Verdict {
    Holds(f64),
    Short(f64),
}

#[tactic(auto, unfolding(crate::specs::Verdict::verdict_of, crate::specs::Verdict::use_of), using(crate::proofs::VerdictLaws::verdict_for))]
pub fn verdict_of(need: u64, capacity: u64) -> Verdict
    requires { Sides need capacity }
    ensures value { result ≡ verdict_of need capacity }
    ensures verdict_for { VerdictFor need capacity result }
{
    let quotient = exact::nearest(need, capacity);
    // The rule itself.
    if need <= capacity {
        return Verdict::Holds(quotient);
    }
    Verdict::Short(quotient)
}

impl Verdict {
    pub fn holds(self) -> bool
        ensures { result ≡ holds self }
    {
        matches!(self, Verdict::Holds(_))
    }

    // The use.
    pub fn used(self) -> f64
        ensures { result ≡ used self }
    {
        let (Verdict::Holds(quotient) | Verdict::Short(quotient)) = self;
        quotient
    }
}
