//! From which end words are read.

ghost use Rattle.std.specs.Prelude.{◌≡◌};

/// From which end words are read.
#[derive(Clone, Copy, Debug)]
pub enum Direction {
    /// From the first letter to the last.
    Forward,
    /// From the last letter to the first.
    Backward,
}

impl Direction {
    ghost use Rattle.lic_auto.specs.Directions.{ordered};

    /// Puts a sequence that is read from its first item on into the order in which this direction reads it.
    pub fn order<T>(self, sequence: &mut [T])
        ensures { sequence.new ≡ ordered self sequence.old }
    {
        match self {
            Direction::Forward => {}
            Direction::Backward => sequence.reverse(),
        }
    }
}
