//! Laws over the definitions alone. Each is the contract of an empty function.

ghost use Rattle.coord_engine.specs.Past.{AfterSomeIsOnTheWay};

/// The world after a prefix of a trail is on the way from the trail's base to the world after the
/// whole trail.
pub fn after_some_is_on_the_way()
    ensures { AfterSomeIsOnTheWay }
{}
