// Paths and their limits by outside examples, and what no clause states: printed text, and the
// numbers of faults. What has a destructor is held by the test alone; helpers take it by reference.
use ft_base::Memory;
use ft_path::{Errno, FilePath, Name, Parts, PartsFault, PathFault};
use std::alloc::{AllocError, Global};
use std::fmt::Display;
use std::test::Fail;

/// The parts of a text that is a path.
fn parts_of(alloc: Global, text: &[u8]) -> Result<Parts, Fail> {
    Ok(FilePath::new(alloc, text)?.parts(alloc)?)
}

/// The errno with which a text without null bytes is refused.
fn errno_of(alloc: Global, text: &[u8]) -> Result<Option<Errno>, PathFault> {
    Ok(match FilePath::new(alloc, text)?.parts(alloc) {
        Err(PartsFault::Errno(errno)) => Some(errno),
        _ => None,
    })
}

/// Returns whether these are the names.
fn are_names(names: &[Name], wanted: &[&[u8]]) -> bool {
    let mut are_alike = names.len() == wanted.len();
    for (name, bytes) in names.iter().zip(wanted) {
        are_alike = are_alike && name.as_bytes() == *bytes;
    }
    are_alike
}

/// A slash and a component of 256 bytes, one more than a name may have.
fn long_component() -> [u8; 257] {
    let mut text = [b'n'; 257];
    text[0] = b'/';
    text
}

#[test]
fn paths_have_parts(rt: HostRuntime) -> Result<(), Fail> {
    let component = long_component();
    let slashes = [b'/'; 4095];
    let letters = [b"a".as_slice(), b"b".as_slice()];
    assert!(rt; has_parts(rt.alloc(), b"/a//b/", &letters, true)?);
    assert!(rt; has_parts(rt.alloc(), &component[..256], &[&component[1..256]], false)?);
    assert!(rt; has_parts(rt.alloc(), &slashes, &[], false)?);
    Ok(())
}

/// Returns whether a text has these parts.
fn has_parts(alloc: Global, text: &[u8], names: &[&[u8]], trailing: bool) -> Result<bool, Fail> {
    let parts = parts_of(alloc, text)?;
    Ok(parts.trailing == trailing && are_names(parts.names.as_slice(), names))
}

#[test]
fn texts_are_refused(rt: HostRuntime) -> Result<(), Fail> {
    let component = long_component();
    let slashes = [b'/'; 4096];
    let table = [
        (b"".as_slice(), Errno::ENOENT),
        (component.as_slice(), Errno::ENAMETOOLONG),
        (slashes.as_slice(), Errno::ENAMETOOLONG),
    ];
    for (text, wanted) in table {
        assert_eq!(rt; errno_of(rt.alloc(), text)?, Some(wanted));
    }
    let nul = FilePath::new(rt.alloc(), b"/a\0b".as_slice());
    assert_eq!(rt; nul.err(), Some(PathFault::NulByte));
    Ok(())
}

/// Returns whether the faults have their numbers.
fn have_numbers() -> bool {
    PathFault::Memory as u8 == 1 && PathFault::NulByte as u8 == 2
}

/// Returns whether lack of memory is the fault of that name.
fn are_of_memory() -> bool {
    PathFault::from(Memory) == PathFault::Memory && PartsFault::from(Memory) == PartsFault::Memory
}

#[test]
fn faults_have_numbers(rt: HostRuntime) {
    assert!(rt; have_numbers() && are_of_memory());
}

#[test]
fn faults_have_names(rt: HostRuntime) -> Result<(), Fail> {
    assert!(rt; is_printed(rt.alloc(), PathFault::NulByte, "NulByte")?);
    assert!(rt; is_printed(rt.alloc(), PartsFault::Memory, "Memory")?);
    assert!(rt; is_printed(rt.alloc(), PartsFault::Errno(Errno::ENOTDIR), "ENOTDIR")?);
    Ok(())
}

/// Returns whether a value is printed so.
pub(crate) fn is_printed<T: Display + Drop>(
    alloc: Global,
    value: T,
    text: &str,
) -> Result<bool, AllocError> {
    Ok(format!(in alloc; "{value}")?.as_str() == text)
}
