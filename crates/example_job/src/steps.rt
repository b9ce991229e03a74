// The calls of a step.
use anyhow::{Result, bail};
use ft_core::{AccessMode, Call, Core, FilePath, OpenFlags, Outcome, Reply, TxnId};
use std::alloc::Global;

/// Makes a file with these bytes. It must not be there yet.
pub fn make_file(
    alloc: Global,
    core: &mut Core,
    txn: TxnId,
    path: &[u8],
    bytes: &[u8],
) -> Result<()> {
    let call = Call::Open {
        path: FilePath::new(alloc, path)?,
        flags: OpenFlags {
            access: AccessMode::WriteOnly,
            create: true,
            excl: true,
            trunc: false,
            append: false,
            mode: None,
        },
    };
    let Reply::Number(fd) = granted(core, txn, call)? else {
        bail!("the file could not be made");
    };
    let bytes = bytes.to_vec(alloc)?.into();
    granted(core, txn, Call::Write { fd, bytes })?;
    granted(core, txn, Call::Close { fd })?;
    Ok(())
}

/// Makes a call, and returns its reply. Nobody else is there for whom it could have to wait.
fn granted(core: &mut Core, txn: TxnId, call: Call) -> Result<Reply> {
    match core.ask(txn, call)? {
        Outcome::Granted { reply, .. } => Ok(reply),
        Outcome::Waits { .. } => bail!("the call has to wait"),
    }
}
