// Directories that are made through a lock and published, each once more if it is refused.
ghost use Rattle.std.specs.Prelude.{◌≡◌};
ghost use Rattle.ft_shared.specs.Opening.{named_by};

use anyhow::{Result, bail};
use ft_calls::{Call, Reply};
use ft_core::Fault;
use ft_path::FilePath;
use ft_record::Recent;
use ft_shared::{Opened, Shared, Sharing, ViewsOf};
use ft_view::Reader;
use std::alloc::Global;
use std::io::Print;
use std::sync::Wait;

/// How many directories are made and published.
const DIRECTORIES: u64 = 40;

/// Makes directories and publishes each, and prints after each how many calls are published, and
/// how many names a reader sees then.
pub fn publish_each<J: Sharing, R: Wait + Print>(
    rt: &R,
    alloc: Global,
    opened: Opened<Recent>,
) -> Result<()>
    requires { named_by opened ≡ J.origin }
{
    let Ok((shared, reader)) = opened.named::<J, R>(rt) else {
        bail!("the views have no name");
    };
    let done = publish_all(rt, alloc, &shared, reader);
    shared.into_core(rt);
    done
}

/// Makes directories and publishes each. Prints what is published, and what a reader sees of it.
fn publish_all<J: Sharing, R: Wait + Print>(
    rt: &R,
    alloc: Global,
    shared: &Shared<J, Recent>,
    mut reader: Reader<ViewsOf<J>>,
) -> Result<()> {
    let root = FilePath::new(alloc, b"/".as_slice())?;
    for number in 0..DIRECTORIES {
        make_with_retry(rt, alloc, shared, number)?;
        let calls = publish_with_retry(rt, shared, &mut reader, &root)?;
        let names = count_with_retry(rt, &mut reader, &root)?;
        println!(rt; "published {calls}, and a reader sees {names}")?;
    }
    Ok(())
}

/// Makes a directory, and once more if that is refused.
fn make_with_retry<J: Sharing, R: Wait + Print>(
    rt: &R,
    alloc: Global,
    shared: &Shared<J, Recent>,
    number: u64,
) -> Result<()> {
    if let Err(fault) = make(rt, alloc, shared, number) {
        println!(rt; "refused: make, {fault}")?;
        make(rt, alloc, shared, number)?;
    }
    Ok(())
}

/// Makes a directory in a transaction of its own, which is aborted if that is refused.
fn make<J: Sharing, R: Wait>(
    rt: &R,
    alloc: Global,
    shared: &Shared<J, Recent>,
    number: u64,
) -> Result<(), Fault> {
    let Ok(text) = format!(in alloc; "/{number}") else {
        return Err(Fault::Memory);
    };
    let Ok(path) = FilePath::new(alloc, text.as_bytes()) else {
        return Err(Fault::Memory);
    };
    let txn = shared.begin(rt)?;
    match shared.ask(rt, txn, Call::Mkdir { path, mode: None }) {
        Ok(_) => shared.commit(rt, txn),
        Err(fault) => {
            shared.abort(rt, txn)?;
            Err(fault)
        }
    }
}

/// Publishes what has committed. If that is refused, it prints what a reader sees then, and
/// publishes once more. Returns how many calls are published.
fn publish_with_retry<J: Sharing, R: Wait + Print>(
    rt: &R,
    shared: &Shared<J, Recent>,
    reader: &mut Reader<ViewsOf<J>>,
    root: &FilePath,
) -> Result<u64> {
    match shared.publish(rt) {
        Ok((calls, _)) => Ok(calls),
        Err(fault) => {
            let names = count(reader, root)?;
            println!(rt; "refused: publish, {fault}, and a reader sees {names}")?;
            let (calls, _) = shared.publish(rt)?;
            Ok(calls)
        }
    }
}

/// Returns how many names a reader sees, if it is not refused twice.
fn count_with_retry<J: Sharing, R: Print>(
    rt: &R,
    reader: &mut Reader<ViewsOf<J>>,
    root: &FilePath,
) -> Result<usize> {
    match count(reader, root) {
        Ok(names) => Ok(names),
        Err(_) => {
            println!(rt; "refused: list")?;
            count(reader, root)
        }
    }
}

/// How many names a reader sees in the root.
fn count<J: Sharing>(reader: &mut Reader<ViewsOf<J>>, root: &FilePath) -> Result<usize> {
    let (_, Reply::Names(names)) = reader.list(root)? else {
        bail!("the root is no directory");
    };
    Ok(names.len())
}
