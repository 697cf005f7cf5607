//! The three streams of a command: its input, its output, and standard error.

ghost use Rattle.coord_commands.specs.Streams.{StreamsState};

use std::io::{Read, Write};
use std::marker::Model;

/// The input, the output and standard error of a run. A contract sees these three and their known
/// contents.
#[derive(Drop)]
pub struct Streams<R: Read, W: Write, E: Write> {
    pub input: R,
    pub output: W,
    pub errors: E,
}

impl<R: Read, W: Write, E: Write> Model for Streams<R, W, E> {
    ghost Value = { StreamsState R W E };

    ghost view = { λ s. record {
      input = s.input;
      output = s.output;
      errors = s.errors;
      known = record {
        input = R.remaining s.input;
        output = W.contents s.output;
        errors = E.contents s.errors;
      };
    } };
}
