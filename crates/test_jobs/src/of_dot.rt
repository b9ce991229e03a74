// Drawings worked by hand, and a reader that fails.
use ft_dot::draw;
use ft_script::PlayFault;
use std::alloc::Global;
use std::io;
use std::io::{ErrorKind, Read};
use std::test::Fail;

/// Returns whether these replies are drawn so.
fn is_drawn(alloc: Global, replies: &str, drawing: &str) -> bool {
    let mut written = Vec::new(alloc);
    draw(alloc, &mut replies.as_bytes(), &mut written).is_ok()
        && written.as_slice() == drawing.as_bytes()
}

#[test]
fn cycle_is_drawn(rt: HostRuntime) -> Result<(), Fail> {
    let replies = "txn 1\nedges 3\nedge 1 2 lock\nedge 1 3 child\nedge 2 1 lock\ncycle 1 2\nok\n";
    let drawing = "digraph waits {\n  1 [color=red];\n  2 [color=red];\n  1 -> 2 [style=solid];\n  \
            1 -> 3 [style=dashed];\n  2 -> 1 [style=solid];\n}\n";
    assert!(rt; is_drawn(rt.alloc(), replies, drawing));
    Ok(())
}

#[test]
fn last_report_is_drawn(rt: HostRuntime) -> Result<(), Fail> {
    let replies =
        "edges 1\nedge 1 1 lock\ncycle 1\nedges 1\nedge 4 5 child\nranks 4:1 5:0\nedges 2\n\
            edge 1 2 lock\nranks 1:1 2:0";
    let drawing = "digraph waits {\n  4 [label=\"4 (rank 1)\"];\n  5 [label=\"5 (rank 0)\"];\n  \
            4 -> 5 [style=dashed];\n}\n";
    assert!(rt; is_drawn(rt.alloc(), replies, drawing));
    Ok(())
}

#[test]
fn no_report_is_an_empty_drawing(rt: HostRuntime) -> Result<(), Fail> {
    let empty = "digraph waits {\n}\n";
    assert!(rt; is_drawn(rt.alloc(), "", empty));
    assert!(rt;
        is_drawn(
            rt.alloc(),
            "txn 1\nwaits 2\nedges 99\nedge 1 2 lock\n",
            empty
        )
    );
    Ok(())
}

/// A reader that fails.
#[derive(Drop)]
struct Failing;

impl Read for Failing {
    fn read(&mut self, _buffer: &mut [u8]) -> io::Result<usize> {
        Err(io::Error::from(ErrorKind::Other))
    }
}

#[test]
fn failed_read_is_told(rt: HostRuntime) -> Result<(), Fail> {
    let mut written = Vec::new(rt.alloc());
    let result = draw(rt.alloc(), &mut Failing, &mut written);
    assert!(rt; result == Err(PlayFault::Read) && written.is_empty());
    Ok(())
}
