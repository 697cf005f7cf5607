//! The law of a text that arrives in pieces: a function without a body whose contract states the law.

ghost use Rattle.coord_lines.specs.Laws.{PiecesHaveTheLinesOfTheWhole};

/// A text that arrives in pieces has the lines of the whole text, whatever the pieces are.
#[tactic(auto, using(crate::proofs::Pieces::pieces_have_the_lines))]
pub fn pieces_have_the_lines_of_the_whole()
    ensures { PiecesHaveTheLinesOfTheWhole }
{}
