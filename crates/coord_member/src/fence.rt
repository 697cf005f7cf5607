//! The gate of a resource that starts of several runs use.

ghost use Rattle.std.specs.Prelude.{◌≡◌, Some, None, if◌then◌else◌};
ghost use Rattle.coord_member.specs.Fence.{admits, new_gate, passed};

/// The gate of a resource. It keeps two counts of the fences that it has accepted; the resource also keeps the tag of
/// the last accepted fence.
#[derive(Clone, Copy, PartialEq, Eq, Debug)]
pub struct Gate {
    /// The greatest count that was accepted before the last change of the tag. A fence with the last accepted tag must
    /// have a greater count.
    pub floor: u64,
    /// The greatest accepted count. A fence with another tag must have a greater count.
    pub count: u64,
}

impl Gate {
    /// Returns the gate of a resource that has accepted nothing.
    pub fn new() -> Self
        ensures { result ≡ new_gate }
    {
        Gate { floor: 0, count: 0 }
    }

    /// Returns the gate after it accepts a fence with this count, or None if it refuses the fence. `is_own` says
    /// whether the fence has the tag of the last accepted fence.
    pub fn pass(self, is_own: bool, count: u64) -> Option<Gate>
        ensures { result ≡ (if admits self is_own count then Some (passed self is_own count) else None) }
    {
        if count <= self.count && !(is_own && self.floor < count) {
            return None;
        }
        Some(Gate {
            floor: if is_own { self.floor } else { self.count },
            count: self.count.max(count),
        })
    }
}
