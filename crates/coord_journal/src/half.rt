//! The two halves of a device.

ghost use Rattle.std.specs.Prelude.{◌≡◌, ◌-◌, ◌%◌, ◌≤◌};
ghost use Rattle.coord_journal.specs.Text.{half_start};

/// One of the two halves.
#[derive(Clone, Copy)]
pub enum Half {
    First,
    Second,
}

impl Half {
    ghost use Rattle.coord_journal.specs.Half.{half_number};

    /// Returns the half that a selector selects.
    pub fn named_by(selector: u8) -> Self
        ensures { half_number result ≡ selector % 2 }
    {
        if selector % 2 == 0 {
            Half::First
        } else {
            Half::Second
        }
    }

    /// Returns the selector of this half, 0 or 1.
    pub fn selector(self) -> u8
        ensures value { result ≡ half_number self }
        ensures names { result % 2 ≡ half_number self }
    {
        match self {
            Half::First => 0,
            Half::Second => 1,
        }
    }

    /// Returns the other half.
    pub fn other(self) -> Self
        ensures { half_number result ≡ 1 - half_number self }
    {
        match self {
            Half::First => Half::Second,
            Half::Second => Half::First,
        }
    }

    /// Returns the offset of this half after the header, in bytes, if a half has this size.
    pub fn start(self, half_size: u64) -> u64
        ensures start { result ≡ half_start (half_number self) half_size }
        ensures low { result ≤ half_size }
    {
        match self {
            Half::First => 0,
            Half::Second => half_size,
        }
    }
}
