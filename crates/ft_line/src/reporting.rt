// Reports of the present state.
ghost use Rattle.std.specs.Prelude.{IfOk, IfSome, string_bytes};
ghost use Rattle.ft_line.specs.Lines.{IsReport, IsWholeReport};

use crate::line::Query;
use crate::lock_text::{AttributeLocksText, LocksText};
use crate::wait_text::WaitsText;
use ft_base::Memory;
use ft_core::Core;
use ft_waits::judged_edges;
use ft_words::TreeText;
use std::alloc::Global;

/// Returns a report, with its line feed. If there is no memory for its contents, the text says so
/// instead.
///
/// Fails only for lack of memory for its text.
pub fn report_of(alloc: Global, report: Query, core: &Core) -> Result<String, Memory>
    ensures { IfOk result (λ text. IsReport core.now.state report (string_bytes text)) }
{
    match whole_report_of(alloc, report, core)? {
        Some(text) => Ok(text),
        None => Ok(String::from_str(alloc, "refused Memory\n")?),
    }
}

/// Returns a report, with its line feed. `None` if there is no memory for its contents.
///
/// Fails only for lack of memory for its text.
pub fn whole_report_of(alloc: Global, report: Query, core: &Core) -> Result<Option<String>, Memory>
    ensures { IfOk result (λ told. IfSome told (λ text. IsWholeReport core.now.state report
        (string_bytes text))) }
{
    match report {
        Query::Tree => tree_report(alloc, core),
        Query::Locks => locks_report(alloc, core),
        Query::Attributes => attributes_report(alloc, core),
        Query::Waits => waits_report(alloc, core),
    }
}

/// Returns the report of the tree.
fn tree_report(alloc: Global, core: &Core) -> Result<Option<String>, Memory>
    ensures { IfOk result (λ told. IfSome told (λ text. IsWholeReport core.now.state Query.Tree
        (string_bytes text))) }
{
    let Ok(rows) = core.tree().rows() else {
        return Ok(None);
    };
    let Ok(tree) = TreeText::of(alloc, rows.as_slice()) else {
        return Ok(None);
    };
    let text = format!(in alloc; "{tree}\n")?;
    Ok(Some(text))
}

/// Returns the report of the locks and their owners, except locks of attributes.
fn locks_report(alloc: Global, core: &Core) -> Result<Option<String>, Memory>
    ensures { IfOk result (λ told. IfSome told (λ text. IsWholeReport core.now.state Query.Locks
        (string_bytes text))) }
{
    match core.lock_lines() {
        Ok(locks) => {
            let text = format!(in alloc; "{}\n", LocksText(locks.as_slice()))?;
            Ok(Some(text))
        }
        Err(_) => Ok(None),
    }
}

/// Returns the report of the locks of attributes and their owners.
fn attributes_report(alloc: Global, core: &Core) -> Result<Option<String>, Memory>
    ensures { IfOk result (λ told. IfSome told (λ text. IsWholeReport core.now.state
        Query.Attributes (string_bytes text))) }
{
    match core.lock_lines() {
        Ok(locks) => {
            let text = format!(in alloc; "{}\n", AttributeLocksText(locks.as_slice()))?;
            Ok(Some(text))
        }
        Err(_) => Ok(None),
    }
}

/// Returns the report of the waits-for edges.
fn waits_report(alloc: Global, core: &Core) -> Result<Option<String>, Memory>
    ensures { IfOk result (λ told. IfSome told (λ text. IsWholeReport core.now.state Query.Waits
        (string_bytes text))) }
{
    match judged_edges(core) {
        Ok((edges, verdict)) => {
            let text = WaitsText {
                edges: edges.as_slice(),
                verdict: &verdict,
            };
            let text = format!(in alloc; "{text}\n")?;
            Ok(Some(text))
        }
        Err(Memory) => Ok(None),
    }
}
