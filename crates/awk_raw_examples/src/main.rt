//! Runs sessions of version 2: first that on standard input, raw loads of every class and both
//! orders of bytes; then one whose last line is a raw load, cut after each byte from the line itself
//! on, one run after another. The answers of all these runs are its output.
#![tactic(auto)]

ghost use Rattle.std.specs.Prelude.{◌≡◌, ◌<◌};

mod cuts;

use awk_lanes::Steps;
use awk_run::{Status, run_program};
use std::marker::Brand;
use std::process::ExitCode;
use std::sync::ledger::{Blank, Ledger};

fn main(rt: HostRuntime) -> ExitCode {
    let status = answer_input::<Brand>(&rt, Blank::new(1));
    for count in 0..cuts::REST.len() + 1 {
        cuts::answer_part::<Brand>(&rt, Blank::new(1), &cuts::REST[..count]);
    }
    ExitCode::from(status.number())
}

// A run over standard input, whose steps nobody reads.
fn answer_input<L: Ledger>(rt: &HostRuntime, blank: Blank) -> Status
    requires name { blank.name ≡ L.name }
    requires parts { blank.parts ≡ L.parts }
    requires some { 0 < blank.parts }
{
    run_program(rt, &mut Steps::<L>::new(rt, blank))
}
