//! The laws of looks: functions without a body whose contracts state the laws.

ghost use Rattle.coord_look.specs.Worlds.{LookIsShown, NoLookIsAbsent};

/// In the view of a world in its ranges, a member reads exactly what that world shows the member:
/// its node, all nodes that a path of links connects with its node, and the links between them.
pub fn look_is_shown()
    ensures { LookIsShown }
{}

/// If the view has no row for a node, the node does not exist.
pub fn no_look_is_absent()
    ensures { NoLookIsAbsent }
{}
