// The versions of a sheet's bytes (document 02, S-8).
ghost use Rattle.std.specs.Prelude.{◌≡◌, ◌≤◌};
ghost use Rattle.layout.specs.Layout.{version_number, least_length, prefix_length};
ghost use Rattle.layout.specs.Header.{version_for};

use crate::reading::is_length;

// Version 2 has field 20, straight after field 6. Never compared or printed.
#[derive(Clone, Copy)]
pub enum Version {
    One,
    Two,
}

impl Version {
    // The one that has this length L, if any has.
    #[tactic(auto, unfolding(crate::specs::Header::version_for))]
    pub(crate) fn for_length(length: usize) -> Version
        requires { length ≤ 65535 }
        ensures { result ≡ version_for length }
    {
        if is_length(Version::One, length) {
            Version::One
        } else {
            Version::Two
        }
    }

    // The version byte.
    pub(crate) fn number(self) -> u8
        ensures { result ≡ version_number self }
    {
        match self {
            Version::One => 1,
            Version::Two => 2,
        }
    }

    // L less 20 for each course.
    pub(crate) fn least(self) -> usize
        ensures { result ≡ least_length self }
    {
        match self {
            Version::One => 58,
            Version::Two => 62,
        }
    }

    // Where the tail starts.
    pub fn prefix(self) -> usize
        ensures { result ≡ prefix_length self }
    {
        match self {
            Version::One => 27,
            Version::Two => 31,
        }
    }
}
