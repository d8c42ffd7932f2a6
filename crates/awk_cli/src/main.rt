//! The program: reads a session of lines from standard input, and writes an answer for each to
//! standard output.
//!
//! `main` begins the counter of steps and hands all else to `run_program`. Its stored run is all
//! sessions of `examples/` as one: each class, each operation and each fault.
#![tactic(auto)]

ghost use Rattle.std.specs.Prelude.{◌≡◌, ◌<◌};

use awk_lanes::Steps;
use awk_run::{Status, run_program};
use std::marker::Brand;
use std::process::ExitCode;
use std::sync::ledger::{Blank, Ledger};

fn main(rt: HostRuntime) -> ExitCode {
    let status = run_counted::<Brand>(&rt, Blank::new(1));
    ExitCode::from(status.number())
}

// A run whose steps nobody reads.
fn run_counted<L: Ledger>(rt: &HostRuntime, blank: Blank) -> Status
    requires name { blank.name ≡ L.name }
    requires parts { blank.parts ≡ L.parts }
    requires some { 0 < blank.parts }
{
    run_program(rt, &mut Steps::<L>::new(rt, blank))
}
