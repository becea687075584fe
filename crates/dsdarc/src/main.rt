//! The program `dsdarc`: `play PROJECT IN OUT` plays a one-bit recording to a RIFF WAVE file,
//! `convert FORM IN OUT` writes it in another form, `edit FORM PROJECT MASTER CERT` cuts a master from takes and
//! certifies it, `check PROJECT MASTER CERT` judges a master and its certificate, `nulltest MIX MASTER` compares a
//! master, as heard, with the mix that it should be, and `info FILE` tells what a recording's file holds. All of it is
//! `command_core`'s, which is given the system and what explains faults here.
#![tactic(auto)]

use command_core::run_program;
use explain_core::Explainer;
use std::io::IsTerminal;
use std::process;
use std::process::ExitCode;

fn main(rt: HostRuntime) -> ExitCode {
    let is_watched = rt.stderr().is_terminal();
    run_program(&rt, process::id(rt.process()), is_watched, &Explainer)
}
