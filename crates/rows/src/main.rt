//! Row checker: reads rows from the standard input, each some patterns, a text and the expected
//! answer, and reports those to which some engine gives another answer over some cutting of the
//! text.
#![tactic(auto)]

mod calls;
mod cursors;
mod engines;
mod faults;
mod grouped;
mod inputs;
mod judge;
mod parses;
mod partial;
mod reach;
mod row;
mod searches;
mod settings;
mod slots;
mod steps;
mod streams;
mod tables;
mod told;
mod which;

use crate::faults::Fault;
use crate::judge::judge;
use crate::row::Row;
use std::alloc::Global;
use std::io;

/// The row of a line is answered as it wants to be.
fn run(alloc: Global, line: &str) -> Result<(), Fault> {
    let mut row = Row::read(alloc, line)?;
    judge(alloc, &mut row)
}

fn main(rt: HostRuntime) -> io::Result<()> {
    let mut number = 0u64;
    let mut rows = 0u64;
    let mut wrong = 0u64;
    for line in rt.lines(rt.alloc()) {
        let line = line?;
        number = number.saturating_add(1);
        if line.is_empty() || line.starts_with('#') {
            continue;
        }
        rows = rows.saturating_add(1);
        if let Err(fault) = run(rt.alloc(), &line) {
            wrong = wrong.saturating_add(1);
            let Fault { by, what } = fault;
            println!(rt; "line {number}: {by} {what}: {line}")?;
        }
    }
    println!(rt; "{rows} rows, {wrong} wrong")
}
