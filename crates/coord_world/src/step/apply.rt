//! Carries out a step, and lists the packets to resend.

ghost use Rattle.std.specs.Prelude.{◌≡◌, ◌++◌, IfOk, OnOk, OnErr};
ghost use Rattle.coord_node.specs.Steps.{transitions, transitions_ordered};
ghost use Rattle.coord_world.specs.protocol.NumberedWorld.{state};
ghost use Rattle.coord_world.specs.protocol.Next.{with_transitions, next, with_reply, with_command, prepared, reply};
ghost use Rattle.coord_world.specs.protocol.Outputs.{again, outputs, receipts, signals};
ghost use Rattle.coord_world.specs.protocol.Ranges.{InRange};
ghost use Rattle.coord_world.specs.code.Fronts.{fronts_ordered, new_fronts};
ghost use Rattle.coord_world.specs.code.Ready.{IsReadyFor};

use crate::step::outputs;
use crate::tables::Tables;
use crate::world::StepOutcome;
use coord_types::{Client, Command, Kind, Output, Reply, Session, Step};
use std::alloc::{AllocError, Global};

impl Tables {
    /// Carries out a step, and returns its reply and outputs. It allocates before it changes
    /// anything.
    pub fn apply(&mut self, alloc: Global, step: &Step) -> Result<StepOutcome, AllocError>
        requires { IsReadyFor self.old step.now }
        ensures world { OnOk result (self.new ≡ next self.old step.now) }
        ensures reply { IfOk result (λ outcome. outcome.reply ≡ reply self.old step.now) }
        ensures outputs { IfOk result (λ outcome. outcome.outputs.items ≡
            outputs self.old step.now) }
        ensures err { OnErr result (self.new ≡ self.old) }
    {
        let reply = self.reply_to(step);
        let outputs = self.execute(alloc, step, reply)?;
        self.count = reply.step;
        Ok(StepOutcome { reply, outputs })
    }

    /// Carries out a step, but does not count it. Returns its outputs.
    fn execute(
        &mut self,
        alloc: Global,
        step: &Step,
        reply: Reply,
    ) -> Result<Vec<Output>, AllocError>
        requires { IsReadyFor self.old step.now }
        ensures world { OnOk result (self.new ≡
            with_reply (with_transitions (prepared self.old step.now)
            (transitions self.old.version (state self.old) step.now)) reply step.now) }
        ensures outputs { IfOk result (λ outputs. outputs.items ≡
            receipts step.now ++ signals (transitions self.old.version (state self.old) step.now) ++
            new_fronts self.old step.now) }
        ensures err { OnErr result (self.new ≡ self.old) }
    {
        match *step {
            Step::Order(client, number, command) => {
                self.order(alloc, client, number, &command, reply)
            }
            Step::Take(packet) => self.deliver(alloc, &packet),
            Step::Clear(packet) => self.clear_front(alloc, packet.from, packet.to),
        }
    }

    /// Returns the resend list.
    pub fn again(&self, alloc: Global) -> Result<Vec<Output>, AllocError>
        requires { InRange self.now }
        ensures { IfOk result (λ outputs. outputs.items ≡ again self.now) }
    {
        let mut outputs = Vec::new(alloc);
        outputs::push_all_again(alloc, &self.links, &mut outputs)?;
        Ok(outputs)
    }

    fn reply_to(&self, step: &Step) -> Reply
        requires { IsReadyFor self.now step.now }
        ensures { result ≡ reply self.now step.now }
    {
        let kind = match *step {
            Step::Order(_, _, command) => self.kind_of(&command),
            Step::Take(_) => Kind::Taken,
            Step::Clear(_) => Kind::Cleared,
        };
        Reply {
            step: self.count + 1,
            kind,
        }
    }

    /// Carries out an order, and records it as its client's last one. The order is passed in parts,
    /// because the toolchain has no proof for a `Command` passed by value to a generic call.
    fn order(
        &mut self,
        alloc: Global,
        client: Client,
        number: u64,
        command: &Command,
        reply: Reply,
    ) -> Result<Vec<Output>, AllocError>
        requires { IsReadyFor self.old (Step.Order client number command.now) }
        ensures world { OnOk result (self.new ≡
            with_reply (with_transitions (with_command self.old command.now)
            (transitions_ordered self.old.version (state self.old) command.now)) reply
            (Step.Order client number command.now)) }
        ensures outputs { IfOk result (λ outputs. outputs.items ≡
            signals (transitions_ordered self.old.version (state self.old) command.now) ++
            fronts_ordered self.old command.now) }
        ensures err { OnErr result (self.new ≡ self.old) }
    {
        let mut sessions = self.sessions.copy()?;
        let session = Session {
            number,
            command: *command,
            reply,
        };
        sessions.insert(client, session)?;
        let outputs = self.obey(alloc, client, number, command)?;
        self.sessions = sessions;
        Ok(outputs)
    }
}
