//! Applies changes of the policy.

use crate::event_loop::EventLoop;
use crate::gateway::Gateway;
use std::alloc::AllocError;
use std::fs::{File, Files};
use std::time::Clock;

impl<G: Gateway> EventLoop<G> {
    /// Refreshes the gateway if that is due. If the policy has changed, ends the connections that
    /// have lost a right that they use. Errors: out of memory.
    pub(crate) fn refresh<R: Files<File = File> + AllocGlobal + Clock + Print + Eprint>(
        &mut self,
        rt: &R,
    ) -> Result<(), AllocError> {
        if self.at.now < self.gateway.refresh_at() {
            return Ok(());
        }
        self.counts.open = self.connections.len();
        self.counts.watchers = self.watchers.len();
        self.counts.is_answering = self.is_answering;
        if !self.gateway.refresh(rt, self.at.now, &self.counts) {
            return Ok(());
        }
        for place in 0..self.connections.capacity() {
            if self.lost_rights(place)? {
                self.end(place)?;
            }
        }
        Ok(())
    }

    fn lost_rights(&self, place: usize) -> Result<bool, AllocError> {
        let Some(connection) = self.connections.get(place) else {
            return Ok(false);
        };
        let Some(role) = connection.role else {
            return Ok(false);
        };
        if connection.is_watching && !self.gateway.may_watch(role) {
            return Ok(true);
        }
        self.core
            .has_denied(self.alloc, &self.gateway, connection.number, role)
    }
}
