// The methods for hoop need, and their numbers (document 02, S-3).
ghost use Rattle.rules.specs.Method.{Chosen};

use fields::Refusal;

// AWWA D100, and the one-foot method of API 650.
#[derive(Clone, Copy, Debug, PartialEq, Eq)]
pub enum Method {
    D100,
    Api650,
}

// The method that a caller picks by its number. Refused: 42.
impl TryFrom<u32> for Method {
    type Error = Refusal;

    ghost try_from_gives = { Chosen };

    fn try_from(number: u32) -> Result<Self, Refusal> {
        match number {
            1 => Ok(Method::D100),
            2 => Ok(Method::Api650),
            _ => Err(Refusal::BadMethod),
        }
    }
}
