//! Decodes commands, packets and steps.

ghost use Rattle.std.specs.Prelude.{[]};
ghost use Rattle.coord_batch.specs.Format.{items_at};
ghost use Rattle.coord_batch.specs.Reading.{ReadsSpelled};
ghost use Rattle.coord_batch.specs.Steps.{command, data_packet, receipt_packet, step, steps};

use crate::fault::ReadError;
use crate::input::Input;
use coord_types::{Command, DataPacket, MAX_BATCH_STEPS, ReceiptPacket, Step, Version};
use std::alloc::Global;

impl<'a> Input<'a> {
    /// Reads a command: a byte for its form, then its nodes and numbers.
    #[tactic(auto, unfolding(crate::specs::Steps::command, crate::specs::Steps::command_case))]
    pub fn command(&mut self) -> Result<Command, ReadError>
        ensures { ReadsSpelled (λ x. x) result (command.read self.old) self.new }
    {
        let left = self.left();
        match self.byte()? {
            0 => Ok(Command::Add(self.node()?, self.group()?)),
            1 => Ok(Command::Remove(self.node()?)),
            2 => Ok(Command::Join(self.node()?, self.node()?)),
            3 => Ok(Command::Drop(self.node()?, self.node()?)),
            4 => Ok(Command::Reset(self.node()?)),
            5 => Ok(Command::Confirm(self.node()?, self.u64()?)),
            _ => Err(ReadError::bad_byte(left)),
        }
    }

    #[tactic(auto, unfolding(crate::specs::Steps::data_packet))]
    fn data_packet(&mut self, version: Version) -> Result<DataPacket, ReadError>
        ensures { ReadsSpelled (λ x. x) result ((data_packet version).read self.old) self.new }
    {
        Ok(DataPacket {
            from: self.node()?,
            to: self.node()?,
            inc: self.u64()?,
            number: self.u64()?,
            msg: self.message(version, u64::MAX)?,
        })
    }

    #[tactic(auto, unfolding(crate::specs::Steps::receipt_packet))]
    fn receipt_packet(&mut self) -> Result<ReceiptPacket, ReadError>
        ensures { ReadsSpelled (λ x. x) result (receipt_packet.read self.old) self.new }
    {
        Ok(ReceiptPacket {
            from: self.node()?,
            to: self.node()?,
            inc: self.u64()?,
            number: self.u64()?,
        })
    }

    #[tactic(auto, unfolding(crate::specs::Steps::step, crate::specs::Steps::step_case, crate::specs::Steps::order))]
    fn step(&mut self, version: Version) -> Result<Step, ReadError>
        ensures { ReadsSpelled (λ x. x) result ((step version).read self.old) self.new }
    {
        let left = self.left();
        match self.byte()? {
            0 => Ok(Step::Order(self.client()?, self.from_one()?, self.command()?)),
            1 => Ok(Step::Take(self.data_packet(version)?)),
            2 => Ok(Step::Clear(self.receipt_packet()?)),
            _ => Err(ReadError::bad_byte(left)),
        }
    }

    /// Reads this many steps.
    fn step_list(
        &mut self,
        alloc: Global,
        version: Version,
        count: u16,
    ) -> Result<Vec<Step>, ReadError>
        ensures { ReadsSpelled (λ v. v.items) result
            (items_at (λ _. step version) count [] self.old) self.new }
    {
        let mut list = Vec::with_capacity(alloc, usize::from(count))?;
        for _ in 0..count {
            // The step is passed by reference, because the toolchain has no proof for a `push` of a value that
            // holds a `Command`.
            list.extend_from_slice(&[self.step(version)?])?;
        }
        Ok(list)
    }

    /// Reads the number of steps, from 1 to `MAX_BATCH_STEPS`, and the steps.
    #[tactic(auto, unfolding(crate::specs::Steps::steps, crate::specs::Steps::how_many_steps))]
    pub(crate) fn steps(&mut self, alloc: Global, version: Version) -> Result<Vec<Step>, ReadError>
        ensures { ReadsSpelled (λ v. v.items) result ((steps version).read self.old) self.new }
    {
        let left = self.left();
        let count = self.u16()?;
        if !(1..=MAX_BATCH_STEPS as u16).contains(&count) {
            return Err(ReadError::bad_byte(left));
        }
        self.step_list(alloc, version, count)
    }
}
