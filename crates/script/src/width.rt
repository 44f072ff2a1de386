ghost use Rattle.std.specs.Prelude.{◌≡◌, ◌≤◌};
ghost use Rattle.script.specs.Widths.{bytes_of, width_of};

use crate::mistake::Mistake;

/// How many bytes an integer has.
#[derive(Clone, Copy, Debug, PartialEq, Eq)]
pub enum Width {
    One = 1,
    Two = 2,
    Four = 4,
    Eight = 8,
}

impl Width {
    pub fn bytes(self) -> usize
        ensures value { result ≡ bytes_of self }
        ensures low { 1 ≤ result }
        ensures high { result ≤ 8 }
    {
        self as usize
    }
}

impl TryFrom<u64> for Width {
    type Error = Mistake;

    ghost try_from_gives = { λ n r. r ≡ width_of n };

    fn try_from(bytes: u64) -> Result<Width, Mistake> {
        match bytes {
            1 => Ok(Width::One),
            2 => Ok(Width::Two),
            4 => Ok(Width::Four),
            8 => Ok(Width::Eight),
            _ => Err(Mistake::NoWidth),
        }
    }
}
