//! Worked examples of notes compared with steps. Each is the contract of an empty function.

ghost use Rattle.coord_engine.specs.WorkedNames.{NamedByTwo, NamesInPlace, NotInOrder, NotOfAnotherKind, NotOneShort};

/// Two shares that noted one step each name both steps.
pub fn named_by_two()
    ensures { NamedByTwo }
{}

/// A share that noted its two steps in the wrong order does not name them.
pub fn not_in_order()
    ensures { NotInOrder }
{}

/// If one of two steps was not noted, the notes do not name both steps.
pub fn not_one_short()
    ensures { NotOneShort }
{}

/// If a step was noted with another kind of reply, the notes do not name it.
pub fn not_of_another_kind()
    ensures { NotOfAnotherKind }
{}

/// A note's number determines the place of its step in the trail.
pub fn names_in_place()
    ensures { NamesInPlace }
{}
