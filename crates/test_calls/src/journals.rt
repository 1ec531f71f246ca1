//! The first calls of the README of `journal`, over a file in memory.
use disk::MemoryDisk;
use journal::{
    a_run_of_calls_loses_nothing, append, create, no_acknowledged_step_is_lost, open, read_all,
};
use plantext::read_step;
use std::alloc::Global;

const START: &[u8] = b"Package: foo\nStatus: deinstall ok config-files\n\n";

// How many steps the journal has that is opened behind one step.
fn steps_behind_one(alloc: Global) -> Option<usize> {
    let step = read_step(alloc, b"purge foo\n").ok()?;
    let mut disk = MemoryDisk::new(alloc, Vec::new(alloc));
    let mut ledger = create(alloc, &mut disk, START, b"amd64").ok()?;
    append(alloc, &mut ledger, &mut disk, &step, None).ok()?;
    let file = read_all(alloc, &mut disk).ok()?;
    let opened = open(alloc, &mut disk, &file, b"amd64").ok()?;
    Some(opened.history().len())
}

#[test]
fn a_journal_that_is_opened_again_has_its_step(rt: HostRuntime) {
    no_acknowledged_step_is_lost::<MemoryDisk>();
    a_run_of_calls_loses_nothing::<MemoryDisk>();
    assert!(rt; steps_behind_one(rt.alloc()) == Some(1));
}
