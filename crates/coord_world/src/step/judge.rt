//! Judges steps: which ones a world accepts, and why it refuses the others.

ghost use Rattle.std.specs.Prelude.{◌≡◌, Some};
ghost use Rattle.coord_link.specs.LaneMachine.{refused_or};
ghost use Rattle.coord_node.specs.Steps.{kind_ordered};
ghost use Rattle.coord_world.specs.protocol.NumberedWorld.{state};
ghost use Rattle.coord_world.specs.protocol.Acceptance.{judged, accepts, against_command, has_sent};

use crate::tables::Tables;
use crate::verdicts::Verdict;
use coord_link::Lane;
use coord_types::{
    Client, Command, DataPacket, Kind, MAX_DEGREE, MAX_LINKS, MAX_STEPS, Mode, NodeId,
    ReceiptPacket, Refusal, Step,
};

impl Tables {
    /// Returns the verdict on a step, or the first refusal that applies.
    pub fn judge(&self, settled: &Tables, step: &Step) -> Result<Verdict, Refusal>
        ensures { result ≡ accepts self.now settled.now step.now }
    {
        match *step {
            Step::Order(client, number, command) => self.judge_order(client, number, &command),
            Step::Take(packet) => self.judge_data(settled, packet),
            Step::Clear(packet) => self.judge_receipt(settled, packet),
        }
    }

    /// Returns the verdict on an order, given its client's last order, or the first refusal that applies.
    #[tactic(auto, using(coord_types::proofs::Commands::same_is, coord_types::proofs::Commands::same_self))]
    fn judge_order(
        &self,
        client: Client,
        number: u64,
        command: &Command,
    ) -> Result<Verdict, Refusal>
        ensures { result ≡ accepts self.now self.now (Step.Order client number command.now) }
    {
        let mut before = 0;
        if let Some(last) = self.sessions.get(client) {
            if last.number == number && last.command == *command {
                return Ok(Verdict::Repeat(last.reply));
            }
            before = last.number;
        }
        if self.count >= MAX_STEPS {
            return Err(Refusal::Exhausted);
        }
        if number == 0 || number != before && number - 1 != before {
            return Err(Refusal::OutOfTurn);
        }
        if number == before {
            return Err(Refusal::NumberReused);
        }
        self.judge_fresh(command)
    }

    /// Returns the verdict on a command whose number is the client's next one.
    #[tactic(auto, using(crate::proofs::Acceptance::passes, crate::proofs::Acceptance::refuses))]
    fn judge_fresh(&self, command: &Command) -> Result<Verdict, Refusal>
        ensures { result ≡ refused_or (Verdict.Fresh (kind_ordered (state self.now) command.now))
            (against_command self.now command.now) }
    {
        if let Err(refusal) = self.judge_command(command) {
            return Err(refusal);
        }
        Ok(Verdict::Fresh(self.kind_of(command)))
    }

    fn judge_command(&self, command: &Command) -> Result<(), Refusal>
        ensures { result ≡ refused_or tt (against_command self.now command.now) }
    {
        match *command {
            Command::Add(id, _) => {
                if self.node(id).is_some() {
                    return Err(Refusal::NodeExists);
                }
                Ok(())
            }
            Command::Remove(id) => self.judge_remove(id),
            Command::Join(a, b) => self.judge_join(a, b),
            Command::Drop(a, b) => self.judge_drop(a, b),
            Command::Reset(id) => {
                if self.node(id).is_none() {
                    return Err(Refusal::UnknownNode);
                }
                Ok(())
            }
            Command::Confirm(id, epoch) => self.judge_confirm(id, epoch),
        }
    }

    fn judge_remove(&self, id: NodeId) -> Result<(), Refusal>
        ensures { result ≡ refused_or tt (against_command self.now (Command.Remove id)) }
    {
        let Some(node) = self.node(id) else {
            return Err(Refusal::UnknownNode);
        };
        if node.neighbours().len() != 0 {
            return Err(Refusal::HasLinks);
        }
        Ok(())
    }

    fn judge_join(&self, a: NodeId, b: NodeId) -> Result<(), Refusal>
        ensures { result ≡ refused_or tt (against_command self.now (Command.Join a b)) }
    {
        let Some(one) = self.node(a) else {
            return Err(Refusal::UnknownNode);
        };
        let Some(other) = self.node(b) else {
            return Err(Refusal::UnknownNode);
        };
        if a == b {
            return Err(Refusal::SameNode);
        }
        if one.group() != other.group() {
            return Err(Refusal::OtherGroup);
        }
        if self.links.lane(a, b).is_some() {
            return Err(Refusal::LinkExists);
        }
        if one.neighbours().len() >= MAX_DEGREE || other.neighbours().len() >= MAX_DEGREE {
            return Err(Refusal::DegreeFull);
        }
        if self.links.len() >= MAX_LINKS {
            return Err(Refusal::LinksFull);
        }
        Ok(())
    }

    fn judge_drop(&self, a: NodeId, b: NodeId) -> Result<(), Refusal>
        ensures { result ≡ refused_or tt (against_command self.now (Command.Drop a b)) }
    {
        if self.node(a).is_none() || self.node(b).is_none() {
            return Err(Refusal::UnknownNode);
        }
        if a == b {
            return Err(Refusal::SameNode);
        }
        if self.links.lane(a, b).is_none() {
            return Err(Refusal::NoLink);
        }
        Ok(())
    }

    fn judge_confirm(&self, id: NodeId, epoch: u64) -> Result<(), Refusal>
        ensures { result ≡ refused_or tt (against_command self.now (Command.Confirm id epoch)) }
    {
        let Some(node) = self.node(id) else {
            return Err(Refusal::UnknownNode);
        };
        if epoch <= node.confirmed() || epoch > node.epoch() {
            return Err(Refusal::BadEpoch);
        }
        Ok(())
    }

    /// Returns the kind of the reply that a command will get.
    #[tactic(auto, using(coord_types::proofs::Sets::node_sets))]
    pub fn kind_of(&self, command: &Command) -> Kind
        ensures { result ≡ kind_ordered (state self.now) command.now }
    {
        let Command::Reset(id) = *command else {
            return Kind::Done;
        };
        match self.node(id) {
            None => Kind::Finished,
            Some(node) => {
                if node.mode() != Mode::Ready {
                    Kind::Joined
                } else if node.neighbours().len() == 0 {
                    Kind::Finished
                } else {
                    Kind::Started
                }
            }
        }
    }

    fn judge_data(&self, settled: &Tables, packet: DataPacket) -> Result<Verdict, Refusal>
        ensures { result ≡ judged self.now settled.now (Step.Take packet) }
    {
        if self.count >= MAX_STEPS {
            return Err(Refusal::Exhausted);
        }
        let Some(lane) = self.lane_of(packet.from, packet.to, packet.inc) else {
            return Err(Refusal::NoLink);
        };
        lane.judge_take(packet.number, packet.msg)?;
        let released = match settled.lane_of(packet.from, packet.to, packet.inc) {
            None => false,
            Some(sent) => has_sent(sent, packet.number),
        };
        if !released {
            return Err(Refusal::NotReleased);
        }
        Ok(Verdict::Fresh(Kind::Taken))
    }

    fn judge_receipt(&self, settled: &Tables, packet: ReceiptPacket) -> Result<Verdict, Refusal>
        ensures { result ≡ judged self.now settled.now (Step.Clear packet) }
    {
        if self.count >= MAX_STEPS {
            return Err(Refusal::Exhausted);
        }
        let Some(lane) = self.lane_of(packet.from, packet.to, packet.inc) else {
            return Err(Refusal::NoLink);
        };
        lane.judge_clear(packet.number)?;
        let released = match settled.lane_of(packet.from, packet.to, packet.inc) {
            None => false,
            Some(taken) => packet.number <= taken.got(),
        };
        if !released {
            return Err(Refusal::NotReleased);
        }
        Ok(Verdict::Fresh(Kind::Cleared))
    }
}

/// Tests whether a lane of the settled world has released the data packet with this number.
fn has_sent(lane: &Lane, number: u64) -> bool
    ensures { result ≡ has_sent (Some lane.now) number }
{
    number > 0 && number - 1 == lane.base() && !lane.queue().is_empty()
}
