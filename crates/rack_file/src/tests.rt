//! Attaching real files: whose lock refuses a name, and when it is gone.

use crate::FileBay;
use rack::{AttachFault, Bay};
use std::fs::File;
use std::test::Fail;
use std::{env, fs, process};

// What stands before a name is attached.
#[derive(Clone, Copy)]
enum Before {
    // Nothing.
    Nothing,
    // The bay has attached this name.
    Attached(&'static str),
    // Another opening of this file holds its lock.
    Locked(&'static str),
    // One holds a lock that it shares.
    Shared(&'static str),
}

// The files `one` and `two`, another name of `one`, and one that isn't of whole sectors.
const FILES: [(&str, u64); 3] = [("one", 1024), ("two", 1024), ("odd", 1000)];

const CASES: [(&str, Before, &str, Result<u32, AttachFault>); 9] = [
    ("nobody has it", Before::Nothing, "one", Ok(0)),
    ("another file", Before::Attached("one"), "two", Ok(1)),
    (
        "the same name",
        Before::Attached("one"),
        "one",
        Err(AttachFault::Twice { disk: 0 }),
    ),
    (
        "another path of it",
        Before::Attached("one"),
        "./one",
        Err(AttachFault::Failed),
    ),
    (
        "a hard link to it",
        Before::Attached("one"),
        "link",
        Err(AttachFault::Failed),
    ),
    (
        "locked by another opening",
        Before::Locked("one"),
        "one",
        Err(AttachFault::Failed),
    ),
    (
        "its link is locked",
        Before::Locked("link"),
        "one",
        Err(AttachFault::Failed),
    ),
    (
        "locked by one that shares",
        Before::Shared("one"),
        "one",
        Err(AttachFault::Failed),
    ),
    (
        "not of whole sectors",
        Before::Nothing,
        "odd",
        Err(AttachFault::Failed),
    ),
];

// A directory of its own with the files, made anew.
fn make_files(rt: &HostRuntime) -> Result<String, Fail> {
    let temp = env::temp_dir(rt)?;
    let number = process::id(rt.process());
    let dir = format!(in rt.alloc(); "{}/rack-file-{number}", temp.as_path().as_str())?;
    fs::create_dir(rt, dir.as_str())?;
    for (name, bytes) in FILES {
        let made = path(rt, dir.as_str(), name)?;
        File::create(rt, made.as_str())?.set_len(bytes)?;
    }
    let one = path(rt, dir.as_str(), "one")?;
    let link = path(rt, dir.as_str(), "link")?;
    fs::hard_link(rt, one.as_str(), link.as_str())?;
    Ok(dir)
}

// The path of a name there.
fn path(rt: &HostRuntime, dir: &str, name: &str) -> Result<String, Fail> {
    Ok(format!(in rt.alloc(); "{dir}/{name}")?)
}

// What attaching a name answers then.
fn attach(
    rt: &HostRuntime,
    dir: &str,
    before: Before,
    name: &str,
) -> Result<Result<u32, AttachFault>, Fail> {
    let mut bay = FileBay::new(rt, rt.alloc());
    let asked = path(rt, dir, name)?;
    match before {
        Before::Nothing => Ok(bay.attach(asked.as_str())),
        Before::Attached(first) => {
            bay.attach(path(rt, dir, first)?.as_str())?;
            Ok(bay.attach(asked.as_str()))
        }
        Before::Locked(other) => {
            let file = File::open(rt, path(rt, dir, other)?.as_str())?;
            file.try_lock()?;
            Ok(bay.attach(asked.as_str()))
        }
        Before::Shared(other) => {
            let file = File::open(rt, path(rt, dir, other)?.as_str())?;
            file.try_lock_shared()?;
            Ok(bay.attach(asked.as_str()))
        }
    }
}

#[test]
fn locks_belong_to_openings(rt: HostRuntime) -> Result<(), Fail> {
    let dir = make_files(&rt)?;
    for (case, before, name, want) in CASES {
        assert_eq!(rt; attach(&rt, dir.as_str(), before, name)?, want, "{case}");

        // The bay is gone, and its locks with it.
        for (name, _) in FILES {
            let file = File::open(&rt, path(&rt, dir.as_str(), name)?.as_str())?;
            assert!(rt; file.try_lock().is_ok(), "after {case}: {name}");
        }
    }
    fs::remove_dir_all(&rt, dir.as_str())?;
    Ok(())
}
