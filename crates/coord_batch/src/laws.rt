//! Laws of the encodings. Each is the contract of an empty function.

ghost use Rattle.coord_batch.specs.WorkedBytes.{WorkedBytes};
ghost use Rattle.coord_batch.specs.Laws.{BatchesArePrefixFree, BytesAfterBatchesAreExtra, CutBatchesAreShort, StepsArePrefixFree};

/// No encoding of a step is a prefix of the encoding of another step.
#[tactic(auto, using(crate::proofs::SpellingLaws::steps_prefix_free))]
pub fn steps_are_prefix_free()
    ensures { StepsArePrefixFree }
{}

/// No encoding of a batch is a prefix of the encoding of another batch.
#[tactic(auto, using(crate::proofs::SpellingLaws::batches_prefix_free))]
pub fn batches_are_prefix_free()
    ensures { BatchesArePrefixFree }
{}

/// A truncated encoding of a batch is refused as `Short`, at its own length.
#[tactic(auto, using(crate::proofs::SpellingLaws::cut_batches_short))]
pub fn cut_batches_are_short()
    ensures { CutBatchesAreShort }
{}

/// An encoding of a batch followed by more bytes is refused as `Extra`, at the first of these
/// bytes.
#[tactic(auto, using(crate::proofs::SpellingLaws::more_batches_extra))]
pub fn bytes_after_batches_are_extra()
    ensures { BytesAfterBatchesAreExtra }
{}

/// Worked examples: the encodings of a packet and of a batch with one order, and the faults of
/// changed bytes.
pub fn worked_bytes()
    ensures { WorkedBytes }
{}
