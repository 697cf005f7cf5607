//! Laws of a journal's text. Each is the contract of an empty function.
ghost use Rattle.std.specs.Prelude.{◌≡◌, ℕ, List};
ghost use Rattle.coord_journal.specs.Text.{Content, IsText};

/// The bytes of a device are the text of at most one content.
pub fn one_content()
    ensures { (bytes : List ℕ) (one other : Content) → IsText one bytes → IsText other bytes →
        one ≡ other }
{}
