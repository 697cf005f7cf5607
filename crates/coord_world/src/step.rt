//! Steps: the verdict on a step, the world after it, and its outputs.

mod apply;
mod execute;
mod judge;
mod node_transition;
mod outputs;
mod sending;
