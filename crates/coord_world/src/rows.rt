//! Converts a world to lists of rows, in which it is stored, and back.

mod assembly;
mod listing;
mod neighbours;
pub mod parts;
