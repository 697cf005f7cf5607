//! Laws of the encodings: functions without a body whose contracts state the laws.

ghost use Rattle.coord_codec.specs.Laws.{BytesAfterWorldsAreExtra, CutWorldsAreShort, WorldsArePrefixFree};

pub use coord_batch::laws::{
    batches_are_prefix_free, bytes_after_batches_are_extra, cut_batches_are_short,
    steps_are_prefix_free, worked_bytes,
};

/// No encoding of a world is a prefix of the encoding of another world.
#[tactic(auto, using(crate::proofs::WorldGrammars::worlds_prefix_free))]
pub fn worlds_are_prefix_free()
    ensures { WorldsArePrefixFree }
{}

/// A truncated encoding of a world is refused as `Short`, at its own length.
#[tactic(auto, using(crate::proofs::WorldGrammars::cut_worlds_short))]
pub fn cut_worlds_are_short()
    ensures { CutWorldsAreShort }
{}

/// An encoding of a world followed by more bytes is refused as `Extra`, at the first of these
/// bytes.
#[tactic(auto, using(crate::proofs::WorldGrammars::more_worlds_extra))]
pub fn bytes_after_worlds_are_extra()
    ensures { BytesAfterWorldsAreExtra }
{}
