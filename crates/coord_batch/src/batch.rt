//! Batches of steps, encoded as bytes.

ghost use Rattle.std.specs.Prelude.{◌≡◌, true, false, ◌↔◌, ◌≤◌, ℕ, List, length, Ok, Err, IfOk};
ghost use Rattle.std.specs.List.{AllByRecursion};
ghost use Rattle.coord_types.specs.declared.steps.Step.{Step as Taken};
ghost use Rattle.coord_batch.specs.Reading.{ReadsSpelled};
ghost use Rattle.coord_batch.specs.Decoding.{AnswersDecoded, bad_version, decoded, is_version};
ghost use Rattle.coord_batch.specs.Steps.{batch};
ghost use Rattle.coord_batch.specs.Batches.{IsBatch, IsWritable, content, pair};

use crate::fault::{CodecFault, ReadError};
use crate::input::Input;
use crate::step_writing::put_step;
use coord_types::{MAX_BATCH_BYTES, MAX_BATCH_STEPS, MAX_STEPS, Step, Version};
use std::alloc::{AllocError, Global};

/// The number of bytes before the first step: the first step's number and the number of steps.
const HEAD_BYTES: usize = 10;

/// The maximum number of bytes that one step takes.
const MOST_STEP_BYTES: usize = 28;

/// The steps that were committed together, from 1 to 256, and the number of the first step, from 1
/// to 2^40.
#[derive(Drop, Debug)]
pub struct Batch {
    pub first: u64,
    pub steps: Vec<Step>,
}

impl<'a> Input<'a> {
    #[tactic(auto, unfolding(crate::specs::Steps::batch))]
    fn batch(&mut self, alloc: Global, version: Version) -> Result<Batch, ReadError>
        ensures { ReadsSpelled content result ((batch version).read self.old) self.new }
    {
        let first = self.from_one_to(MAX_STEPS)?;
        let steps = self.steps(alloc, version)?;
        Ok(Batch { first, steps })
    }
}

/// Returns the batch whose encoding is exactly these bytes.
fn decode(alloc: Global, version: u8, bytes: &[u8]) -> Result<Batch, CodecFault>
    ensures exact { AnswersDecoded content result (decoded batch version bytes.now) }
    ensures version { is_version version ≡ false → result ≡ Err bad_version }
{
    let Some(known) = Version::new(version) else {
        return Err(CodecFault::bad_version());
    };
    let mut input = Input::new(bytes);
    match input.batch(alloc, known) {
        Err(error) => Err(error.placed(bytes.len())),
        Ok(_) if input.left() > 0 => Err(ReadError::extra(input.left()).placed(bytes.len())),
        Ok(batch) => Ok(batch),
    }
}

/// Returns the batch whose encoding is exactly these bytes, in version 1 or 2 of the grammar
/// (docs/FORMATS.md, "Batches").
pub fn read_batch(alloc: Global, version: u8, bytes: &[u8]) -> Result<Batch, CodecFault>
    // The bytes are the encoding of the result.
    ensures found { IfOk result (λ b.
        (is_version version ≡ true) × IsBatch version b.first b.steps.items ×
        (bytes.now ≡ (batch version).text (content b))) }
    // Bytes that are an encoding are decoded, unless memory runs out.
    ensures only { (first : ℕ) (taken : List Taken) → is_version version ≡ true →
        IsBatch version first taken → bytes.now ≡ (batch version).text (pair first taken)
        → AnswersDecoded content result (Ok (pair first taken)) }
    // A wrong version is reported even if memory runs out.
    ensures version { (result ≡ Err bad_version) ↔ (is_version version ≡ false) }
    // The fault and its place.
    ensures exact { AnswersDecoded content result (decoded batch version bytes.now) }
{
    decode(alloc, version, bytes)
}

/// Encodes a batch of 1 to 256 steps in version 1 or 2. `first` is the number of the first step,
/// from 1 to 2^40. In version 1 no packet may carry a distance. Errors: out of memory.
#[tactic(auto, using(std::proofs::Common::append_assoc), unfolding(crate::specs::Steps::batch, crate::specs::Steps::steps, crate::specs::Fields::from_one_to, crate::specs::Steps::how_many_steps))]
pub fn write_batch(
    alloc: Global,
    version: Version,
    first: u64,
    steps: &[Step],
) -> Result<Vec<u8>, AllocError>
    requires first { (1 ≤ first) × (first ≤ MAX_STEPS) }
    requires count { (1 ≤ length steps.now) × (length steps.now ≤ MAX_BATCH_STEPS) }
    requires writable { AllByRecursion (IsWritable version) steps.now }
    ensures spelled { IfOk result (λ v. v.items ≡ (batch version).text (pair first steps.now)) }
    ensures len { IfOk result (λ v. length v.items ≤ MAX_BATCH_BYTES) }
    ensures fits { IfOk result (λ v. IsBatch version first steps.now) }
{
    let mut out = Vec::with_capacity(alloc, HEAD_BYTES + MOST_STEP_BYTES * steps.len())?;
    out.extend_from_slice(&first.to_be_bytes())?;
    out.extend_from_slice(&(steps.len() as u16).to_be_bytes())?;
    for step in steps {
        put_step(&mut out, version, step)?;
    }
    Ok(out)
}
