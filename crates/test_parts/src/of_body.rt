// Each call on its happy path, and which pages are made.
ghost use Rattle.std.specs.Prelude.{◌≡◌, OnOk};

use ft_base::Memory;
use ft_body::Body;
use std::test::Fail;

/// Returns whether a body has these bytes and no more.
fn holds(body: &Body, bytes: &[u8]) -> Result<bool, Memory> {
    let read = body.read_at(0, u64::MAX)?;
    Ok(read.as_slice() == bytes)
}

/// Returns whether these bytes, and no others of as many as asked for, are at an offset.
fn shows(body: &Body, offset: u64, count: u64, bytes: &[u8]) -> Result<bool, Memory> {
    let read = body.read_at(offset, count)?;
    Ok(read.as_slice() == bytes)
}

#[test]
fn single_calls(rt: HostRuntime) -> Result<(), Fail> {
    let mut body = Body::new(rt.alloc());
    assert!(rt; takes_write_back(&mut body)?);
    Ok(())
}

/// Returns whether the undo of a write gives back the bytes before it.
fn takes_write_back(body: &mut Body) -> Result<bool, Memory> {
    let was_empty = body.is_empty();
    let (taken, undo) = body.write_at(2, b"ab")?;
    let is_written = taken == 2 && body.len() == 4 && holds(body, &[0, 0, b'a', b'b'])?;
    body.undo(undo);
    let is_empty = body.is_empty();
    let _ = body.set_len(1)?;
    Ok(was_empty && is_written && is_empty && shows(body, 0, 9, &[0])?)
}

#[test]
fn copy_is_a_body_of_its_own(rt: HostRuntime) -> Result<(), Fail> {
    let mut body = Body::new(rt.alloc());
    assert!(rt; copies_apart(&mut body)?);
    Ok(())
}

/// Returns whether a copy keeps its bytes when the original changes.
fn copies_apart(body: &mut Body) -> Result<bool, Memory> {
    let _ = body.write_at(2, b"ab")?;
    let copy = body.copy()?;
    let _ = body.write_at(4, b"y")?;
    Ok(holds(&copy, &[0, 0, b'a', b'b'])? && holds(body, &[0, 0, b'a', b'b', b'y'])?)
}

#[test]
fn pages_of_a_body(rt: HostRuntime) -> Result<(), Fail> {
    let mut body = Body::new(rt.alloc());
    assert!(rt; writes_across_pages(&mut body)?);
    Ok(())
}

/// Returns whether a write that crosses from one page into the next is read back, and undone.
fn writes_across_pages(body: &mut Body) -> Result<bool, Memory> {
    let _ = body.set_len(1_048_576)?;
    let has_none = body.pages() == 0;
    let (taken, write) = body.write_at(4_095, b"ab")?;
    let is_written = has_none && taken == 2 && has_two_pages(body)?;
    let is_cut = cuts_and_lengthens(body)?;
    body.undo(write);
    Ok(is_written && is_cut && shows(body, 4_094, 4, b"\0\0\0\0")?)
}

/// Returns whether two pages are made, and have the bytes that were written.
fn has_two_pages(body: &Body) -> Result<bool, Memory> {
    Ok(body.pages() == 2 && body.len() == 1_048_576 && shows(body, 4_094, 4, b"\0ab\0")?)
}

/// Cuts a body at the end of its first page, lengthens it, and undoes both.
fn cuts_and_lengthens(body: &mut Body) -> Result<bool, Memory>
    ensures { OnOk result (body.new ≡ body.old) }
{
    let cut = body.set_len(4_096)?;
    let is_cut = body.pages() == 1;
    let longer = body.set_len(8_192)?;
    let is_longer = body.pages() == 1 && shows(body, 4_095, 2, b"a\0")?;
    body.undo(longer);
    body.undo(cut);
    Ok(is_cut && is_longer && has_two_pages(body)?)
}
