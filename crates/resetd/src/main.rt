//! The program `resetd`. Its commands are in the library `coord_commands`, and the drill is in
//! `coord_drill`.
#![tactic(auto)]

pub use coord_commands::{
    Fault, Streams, check, drill, init, migrate, report, run, run_program, serve, show,
};
pub use coord_drill::coord_drill;
use std::env;
use std::process::ExitCode;

fn main(rt: HostRuntime) -> ExitCode {
    let mut streams = Streams {
        input: rt.stdin(),
        output: rt.stdout(),
        errors: rt.stderr(),
    };
    ExitCode::from(run_program(&rt, env::args(&rt), &mut streams))
}
