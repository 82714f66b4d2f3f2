// Tells a person what a workload file holds, or why it is refused, or writes it again.
#![tactic(auto)]

mod copy;
mod describe;
mod refusal;

use crate::copy::copy_file;
use crate::describe::describe;
use crate::refusal::refuse;
use anyhow::anyhow;
use std::alloc::{AllocError, Global};
use std::{env, fs};
use workload::file::load;

// What the arguments ask for.
#[derive(Drop)]
enum Task {
    // to tell what a file holds
    Describe { file: String },
    // to write a file again
    Copy { file: String, out: String },
}

// The path given as an argument, or `work.tlw` in the current folder.
fn path_or_default(heap: Global, given: Option<String>) -> Result<String, AllocError> {
    given.map_or_else(|| String::from_str(heap, "work.tlw"), Ok)
}

// What up to three arguments ask for, `[FILE]` or `--copy OUT [FILE]`; nothing where OUT is missing.
fn task_of(
    heap: Global,
    first: Option<String>,
    second: Option<String>,
    third: Option<String>,
) -> Result<Option<Task>, AllocError> {
    let first = path_or_default(heap, first)?;
    if first.as_str() != "--copy" {
        return Ok(Some(Task::Describe { file: first }));
    }
    let Some(out) = second else {
        return Ok(None);
    };
    let file = path_or_default(heap, third)?;
    Ok(Some(Task::Copy { file, out }))
}

// Reads the arguments, or tells how they are written.
fn asked(rt: &HostRuntime) -> anyhow::Result<Task> {
    let mut args = env::args(rt)?;
    let _program = args.next();
    let Some(task) = task_of(rt.alloc(), args.next(), args.next(), args.next())? else {
        eprintln!(rt; "usage: inspect [FILE], or inspect --copy OUT [FILE]")?;
        return Err(anyhow!("--copy needs the path of the copy"));
    };
    Ok(task)
}

// The bytes of a file; a missing or unreadable file counts as an empty one.
fn bytes(rt: &HostRuntime, path: &str) -> Vec<u8> {
    fs::read(rt, path).unwrap_or_else(|_| Vec::new(rt.alloc()))
}

// Tells what a file holds.
fn describe_file(rt: &HostRuntime, file: &[u8]) -> anyhow::Result<()> {
    match load(rt.alloc(), file) {
        Ok((workload, span)) => {
            let text = describe(rt.alloc(), &workload, span.length)?;
            print!(rt; "{text}")?;
            Ok(())
        }
        Err(fault) => refuse(rt, fault),
    }
}

fn main(rt: HostRuntime) -> anyhow::Result<()> {
    match asked(&rt)? {
        Task::Describe { file } => describe_file(&rt, bytes(&rt, file.as_str()).as_slice()),
        Task::Copy { file, out } => copy_file(
            &rt,
            bytes(&rt, file.as_str()).as_slice(),
            out.as_str(),
        ),
    }
}

#[cfg(test)]
mod tests {
    use super::*;
    use std::test::Fail;

    // The task that such arguments ask for, in words.
    fn told(heap: Global, args: &[&str]) -> Result<String, Fail> {
        let mut given = [None, None, None];
        for (place, arg) in given.iter_mut().zip(args.iter()) {
            *place = Some(String::from_str(heap, arg)?);
        }
        let [first, second, third] = given;
        let text = match task_of(heap, first, second, third)? {
            Some(Task::Describe { file }) => format!(in heap; "describe {file}")?,
            Some(Task::Copy { file, out }) => format!(in heap; "copy {file} to {out}")?,
            None => String::from_str(heap, "nothing")?,
        };
        Ok(text)
    }

    #[test]
    fn arguments_ask_for_a_task(rt: HostRuntime) -> Result<(), Fail> {
        let heap = rt.alloc();
        let cases: [(&[&str], &str); 5] = [
            (&[], "describe work.tlw"),
            (&["a"], "describe a"),
            (&["--copy", "b"], "copy work.tlw to b"),
            (&["--copy", "b", "a"], "copy a to b"),
            (&["--copy"], "nothing"),
        ];
        for (args, words) in cases {
            assert_eq!(rt; told(heap, args)?.as_str(), words);
        }
        Ok(())
    }
}
