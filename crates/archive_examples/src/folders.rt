//! A folder in memory: a master that is cut and checked there, and files that are read whole by their names.

use crate::outcomes::prints;
use archive_core::{Form, take_names};
use command_core::{MemoryFolder, Outcome, Task, perform, read_files, read_whole};
use folder_core::FileFault;
use part_examples::fixtures::compared::equal;
use part_examples::fixtures::files::{FILE, file_of};
use std::alloc::{AllocError, Global};
use std::test::Fail;

// Two takes, and the cues that are cut from them.
const SPLICE: &[u8] = b"[splice]
weights = [1, 1]
takes = [\"a.dff\", \"b.dff\"]
[[splice.cue]]
take = 0
start = 0
stop = 8
bridge = 1
[[splice.cue]]
take = 1
start = 2
stop = 9
title = \"one\"
";

// A folder of two files.
fn folder(alloc: Global) -> Result<MemoryFolder, AllocError> {
    let mut folder = MemoryFolder::new(alloc);
    folder.put("b.dff", b"")?;
    folder.put("a.dff", &FILE)?;
    Ok(folder)
}

// Whether files are `FILE` and an empty one.
fn are_both(files: &[Vec<u8>]) -> bool {
    match files {
        [first, second] => equal(first, &FILE) && second.is_empty(),
        _ => false,
    }
}

// Whether the files of the takes are read of the folder. It has them, so reading fails only if memory runs out.
fn reads_takes(alloc: Global) -> Result<bool, Fail> {
    let names = take_names(alloc, SPLICE)?;
    let mut folder = folder(alloc)?;
    let files = read_files(alloc, &mut folder, &names).map_err(|_| AllocError)?;
    Ok(are_both(&files) && folder.count() == 2)
}

#[test]
fn reads_the_takes_of_a_project(rt: HostRuntime) -> Result<(), Fail> {
    assert!(rt; reads_takes(rt.alloc())?);
    Ok(())
}

// Three bytes are one read, and their end is another.
#[test]
fn reads_a_whole_file(rt: HostRuntime) -> Result<(), Fail> {
    assert!(rt; equal(&read_whole(rt.alloc(), b"abc".as_slice(), 2)?, b"abc"));
    Ok(())
}

#[test]
fn gives_up_after_so_many_reads(rt: HostRuntime) {
    let read = read_whole(rt.alloc(), b"abc".as_slice(), 1);
    assert!(rt; matches!(&read, Err(FileFault::ReadFailed)));
}

// A project by the weights 1 and 0: both bits of its bridge cost 4.
const CUT: &[u8] = b"[splice]
weights = [1, 0]
takes = [\"a.dff\", \"b.dff\"]
[[splice.cue]]
take = 0
start = 0
stop = 8
bridge = 1
[[splice.cue]]
take = 1
start = 2
stop = 9
";

// Its certificate: two weights, one entry; cue 0, channel 0, one bit; level 0, with the least value 0, one byte per
// excess, 4 and 0; level 1, with the least value 4 and no byte per excess; the cost.
const CERT: &[u8] = b"DSPC\0\x02\0\x02\0\0\0\x01\0\0\0\0\0\x01\
    \0\0\0\0\0\0\0\0\x01\x04\0\
    \0\0\0\0\0\0\0\x04\0\
    \0\0\0\0\0\0\0\x04";

const EDIT: Task = Task::Edit {
    form: Form::Dsdiff,
    project: "e.toml",
    master: "m.dff",
    cert: "c.cert",
};

const CHECK: Task = Task::Check {
    project: "e.toml",
    master: "m.dff",
    cert: "c.cert",
};

// Whether a command comes to an outcome with status 0 and this line. No file is summed here.
fn does(
    alloc: Global,
    task: Task,
    folder: &mut MemoryFolder,
    line: &str,
) -> Result<bool, AllocError> {
    let outcome = perform(alloc, task, folder).unwrap_or(Outcome::WrongWords);
    prints(alloc, outcome, 0, line)
}

// A folder with the project, a take of 16 ones and one of 16 zeros.
fn takes(alloc: Global) -> Result<MemoryFolder, AllocError> {
    let mut folder = MemoryFolder::new(alloc);
    folder.put("e.toml", CUT)?;
    folder.put("a.dff", &file_of(alloc, 1, &[0xff; 2])?)?;
    folder.put("b.dff", &file_of(alloc, 1, &[0; 2])?)?;
    Ok(folder)
}

// Whether a folder has a file of these bytes.
fn holds(folder: &MemoryFolder, name: &str, bytes: &[u8]) -> bool {
    match folder.get(name) {
        Some(found) => equal(found, bytes),
        None => false,
    }
}

// Whether the master is cut and accepted at the cost 4 in a folder, and makes two files there.
fn cuts(alloc: Global, folder: &mut MemoryFolder) -> Result<bool, AllocError> {
    let edited = does(alloc, EDIT, folder, "edited total 4")?;
    let accepted = does(alloc, CHECK, folder, "accepted total 4")?;
    let master = file_of(alloc, 1, &[0xff, 0])?;
    let are_made = holds(folder, "m.dff", &master) && holds(folder, "c.cert", CERT);
    Ok(edited && accepted && are_made && folder.count() == 5)
}

// The same in a new folder.
fn cuts_anew(alloc: Global) -> Result<bool, AllocError> {
    cuts(alloc, &mut takes(alloc)?)
}

#[test]
fn cuts_and_checks_in_a_folder(rt: HostRuntime) {
    assert!(rt; cuts_anew(rt.alloc()).unwrap_or(false));
}
