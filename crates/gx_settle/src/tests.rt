// The program over a source, a sink and a disk in memory, each of which fails once or not at all.
ghost use Rattle.std.specs.Prelude.{◌<◌};

use crate::top::run_settle;
use gx_decide::DiskMem;
use gx_outside::{SinkMem, SourceMem};
use std::alloc::Global;
use std::test::Fail;

// The log's slots, how many bytes a transfer moves at most, and the read, the write and the call on the disk that fails, by its number
// from 1; 0 is none.
#[derive(Clone, Copy)]
struct Outside {
    slots: u32,
    at_most: usize,
    read: u64,
    write: u64,
    call: u64,
}

// The status of a run, and what it has written.
fn run(alloc: Global, outside: Outside) -> Result<(u8, SinkMem), Fail>
    requires { 0 < outside.at_most }
{
    let mut input = Vec::new(alloc);
    input.extend_from_slice(b"settle 4 commit\nask 5\n")?;
    let mut source = SourceMem::new(input, outside.at_most, vec![in alloc; outside.read]?);
    let mut sink = SinkMem::new(alloc, 64, outside.at_most, vec![in alloc; outside.write]?)?;
    let mut disk = DiskMem::new(alloc, outside.slots, vec![in alloc; outside.call]?)?;
    let status = run_settle(alloc, &mut source, &mut sink, &mut disk);
    Ok((status, sink))
}

// On two slots an open makes three calls on the disk, and a settle that keeps a pair four.
#[test]
fn each_fault_has_its_status(rt: HostRuntime) -> Result<(), Fail> {
    for (slots, at_most, read, write, call, status, text) in [
        (2, 64, 0, 0, 0, 0, "4 commit\n5 abort\n"),
        (2, 1, 0, 0, 0, 0, "4 commit\n5 abort\n"),
        (1, 64, 0, 0, 0, 14, "4 commit\nfull\n"),
        (2, 64, 1, 0, 0, 4, "read fault\n"),
        (2, 1, 23, 0, 0, 4, "read fault\n"),
        (2, 1, 24, 0, 0, 0, "4 commit\n5 abort\n"),
        (2, 64, 0, 1, 0, 5, ""),
        (2, 7, 0, 2, 0, 5, "4 commi"),
        (2, 64, 0, 0, 1, 13, "disk fault\n"),
        (2, 64, 0, 0, 3, 13, "disk fault\n"),
        (2, 64, 0, 0, 7, 13, "disk fault\n"),
        (2, 64, 0, 0, 8, 13, "4 commit\ndisk fault\n"),
        (2, 64, 0, 0, 11, 13, "4 commit\ndisk fault\n"),
        (2, 64, 0, 0, 12, 0, "4 commit\n5 abort\n"),
    ] {
        let outside = Outside {
            slots,
            at_most,
            read,
            write,
            call,
        };
        let (came, sink) = run(rt.alloc(), outside)?;
        assert!(rt;
            came == status && sink.written() == text.as_bytes(),
            "status {came} for {status}"
        );
    }
    Ok(())
}
