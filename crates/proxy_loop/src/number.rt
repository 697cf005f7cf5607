//! The numbers that identify connections to the core.

ghost use Rattle.std.specs.Prelude.{◌≡◌, ◌+◌, ◌*◌, ◌<◌, ◌^◌, ◌%◌};

/// The number of places: each connection's place is below this.
pub(crate) const PLACES: usize = 1 << 20;

/// Returns the number of a connection, given its place and how many connections arrived before it.
pub(crate) fn number_of(came: u64, place: usize) -> u64
    requires { (came < 2 ^ 44) × (place < 2 ^ 20) }
    ensures { result ≡ came * 2 ^ 20 + place }
{
    came * PLACES as u64 + place as u64
}

/// Returns the place of the connection with this number.
pub(crate) fn place_of(number: u64) -> usize
    ensures { result ≡ number % 2 ^ 20 }
{
    (number % PLACES as u64) as usize
}
