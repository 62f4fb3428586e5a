// The shell at its bottom course.
ghost use Rattle.fields.specs.Range.{In};
ghost use Rattle.buckling.specs.Bounds.{NetPlate};

// `net` is the bottom course's plate less its allowance.
#[derive(Clone, Copy, Debug, PartialEq, Eq)]
pub struct Shell {
    pub diameter: u32,
    pub net: u32,
    ghost diameter_in: { In 1 diameter },
    ghost net_plate: { NetPlate net },
}
