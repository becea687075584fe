//! The lines and the statuses of those outcomes that no command over small files has. For all others
//! `tests/try_commands` runs the built program.

use archive_core::{CutFault, Fault, StreamFault};
use command_core::{Outcome, outcome_line, status};
use std::alloc::{AllocError, Global};

/// Whether an outcome has this status and this line.
pub(crate) fn prints(
    alloc: Global,
    outcome: Outcome,
    number: u8,
    line: &str,
) -> Result<bool, AllocError> {
    let said = outcome_line(alloc, &outcome)?;
    Ok(status(&outcome) == number && said.as_str() == line)
}

// The same of a fault.
fn prints_fault(alloc: Global, fault: Fault, line: &str) -> bool {
    prints(alloc, Outcome::Fault(fault), 2, line).unwrap_or(false)
}

#[test]
fn prints_the_greatest_cost_and_faults_of_calls(rt: HostRuntime) {
    let alloc = rt.alloc();
    let most = "edited total 340282366920938463463374607431768211455";
    assert!(rt; prints(alloc, Outcome::Edited(u128::MAX), 0, most).unwrap_or(false));
    assert!(rt; prints_fault(alloc, Fault::Cut(CutFault::TakeNumber), "fault: TakeNumber"));
    assert!(rt;
        prints_fault(
            alloc,
            Fault::Cut(CutFault::MasterTooLong),
            "fault: MasterTooLong"
        )
    );
    assert!(rt;
        prints_fault(
            alloc,
            Fault::Stream(StreamFault::TurnLimit),
            "fault: TurnLimit"
        )
    );
}
