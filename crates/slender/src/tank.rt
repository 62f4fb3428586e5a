// What the question is asked of (document 02, S-9), in the units of a sheet: lengths in hundredths of an inch, weights in
// pounds, accelerations and gravity in thousandths.
ghost use Rattle.std.specs.Prelude.{◌≡◌};
ghost use Rattle.slender.specs.Weights.{is_slender};
ghost use Rattle.slender.specs.Question.{contents_in, load_in, accelerations_in, in_ranges};

// What the tank holds: fields 1, 2 and 20.
#[derive(Clone, Copy, Debug, PartialEq, Eq)]
pub struct Contents {
    pub diameter: u32,
    pub level: u32,
    pub gravity: u32,
}

// The weight of shell or roof, and the height above the bottom of the shell at which it acts. Source 003 takes for the shell, with what
// is fastened to it, the height of its centre of gravity, Xs, and for the roof, with framing, knuckle and permanent loads, the shell's
// whole height, Ht.
#[derive(Clone, Copy, Debug, PartialEq, Eq)]
pub struct Load {
    pub weight: u32,
    pub height: u32,
}

#[derive(Clone, Copy, Debug, PartialEq, Eq)]
pub struct SlenderTank {
    pub contents: Contents,
    pub shell: Load,
    pub roof: Load,
}

// The horizontal design accelerations Ai and Ac.
#[derive(Clone, Copy, Debug, PartialEq, Eq)]
pub struct Accelerations {
    pub impulsive: u32,
    pub convective: u32,
}

// The most that a height may be.
const MOST_HEIGHT: u32 = 76800;

// The most that an acceleration may be.
const MOST_ACCELERATION: u32 = 1000;

impl Contents {
    fn in_ranges(self) -> bool
        ensures { result ≡ contents_in self }
    {
        fields::in_range(1, self.diameter)
            && fields::in_range(2, self.level)
            && fields::in_range(20, self.gravity)
    }

    pub(crate) fn is_slender(self) -> bool
        ensures { result ≡ is_slender self }
    {
        1000 * u64::from(self.diameter) < 1333 * u64::from(self.level)
    }
}

impl Load {
    #[tactic(auto, using(fields::proofs::RangeLaws::within_up_to))]
    fn in_ranges(self) -> bool
        ensures { result ≡ load_in self }
    {
        fields::in_range(3, self.weight) && self.height <= MOST_HEIGHT
    }
}

impl Accelerations {
    #[tactic(auto, using(fields::proofs::RangeLaws::within_up_to))]
    fn in_ranges(self) -> bool
        ensures { result ≡ accelerations_in self }
    {
        self.impulsive <= MOST_ACCELERATION && self.convective <= MOST_ACCELERATION
    }
}

// Whether each figure is within its range.
pub(crate) fn in_ranges(tank: SlenderTank, ground: Accelerations) -> bool
    ensures { result ≡ in_ranges tank ground }
{
    tank.contents.in_ranges()
        && tank.shell.in_ranges()
        && tank.roof.in_ranges()
        && ground.in_ranges()
}
