//! Shelves and sinks, in memory and over the runtime's files.
use ca_outside::{
    DirShelf, Drawer, FetchFault, OutSink, Shelf, SinkFailed, SureDrawer, SureTape, Tape, write_out,
};
use std::alloc::{AllocError, Global};
use std::process::Abort;
use std::test::Fail;

// Two of them have one name.
fn files(alloc: Global) -> Result<Vec<(String, Vec<u8>)>, AllocError> {
    let mut files = Vec::new(alloc);
    for (name, content) in [("a", "one"), ("b", "three"), ("a", "two")] {
        let file = (
            String::from_str(alloc, name)?,
            Vec::from_slice(alloc, content.as_bytes())?,
        );
        files.push(file)?;
    }
    Ok(files)
}

// A name, for how many bytes there is room, and what a fetch comes to.
type FetchRow = (&'static str, usize, Result<&'static str, FetchFault>);

// Fetches come to what the rows say.
fn assert_fetches<R: Abort, F: Shelf>(
    rt: &R,
    alloc: Global,
    shelf: &mut F,
    rows: &[FetchRow],
) -> Result<(), Fail> {
    for (name, room, content) in rows {
        let mut into = Vec::new(alloc);
        let answer = shelf.fetch(alloc, name, *room, &mut into);
        assert_eq!(rt; answer, content.map(|_text| ()), "{name}");
        assert_eq!(rt; into.as_slice(), content.unwrap_or("").as_bytes(), "{name}");
    }
    Ok(())
}

const FAILED: Result<&str, FetchFault> = Err(FetchFault::Failed);

const TOO_LONG: Result<&str, FetchFault> = Err(FetchFault::TooLong);

#[test]
fn drawers_are_fetched_from(rt: HostRuntime) -> Result<(), Fail> {
    let alloc = rt.alloc();
    let mut drawer = Drawer::new(files(alloc)?, vec![in alloc; 2]?);
    let rows = [
        ("a", 3, Ok("one")),
        ("a", 3, FAILED),
        ("b", 4, TOO_LONG),
        ("c", 9, FAILED),
        ("b", 5, Ok("three")),
    ];
    assert_fetches(&rt, alloc, &mut drawer, rows.as_slice())?;
    assert_eq!(rt; drawer.log().map(|log| log.len()), Some(5));
    Ok(())
}

#[test]
fn sure_drawers_are_fetched_from(rt: HostRuntime) -> Result<(), Fail> {
    let alloc = rt.alloc();
    let mut drawer = SureDrawer::new(files(alloc)?);
    let rows = [
        ("a", 3, Ok("one")),
        ("b", 4, TOO_LONG),
        ("c", 9, Ok("")),
        ("b", 5, Ok("three")),
    ];
    assert_fetches(&rt, alloc, &mut drawer, rows.as_slice())?;
    assert_eq!(rt; drawer.log().map(|log| log.len()), Some(4));
    Ok(())
}

#[test]
fn files_are_fetched(rt: HostRuntime) -> Result<(), Fail> {
    let alloc = rt.alloc();
    let mut shelf = DirShelf::new(alloc, &rt);
    let rows = [
        ("/dev/null", 40_000, Ok("")),
        ("/no/such/file", 40_000, FAILED),
        // It has no end.
        ("/dev/zero", 40_000, TOO_LONG),
        // Linux tells its name there.
        ("/proc/sys/kernel/ostype", 40_000, Ok("Linux\n")),
    ];
    assert_fetches(&rt, alloc, &mut shelf, rows.as_slice())?;
    assert_eq!(rt; shelf.faults(), 1);
    assert_eq!(rt; shelf.log().map(|log| log.len()), Some(4));
    Ok(())
}

#[test]
fn tapes_are_written_to(rt: HostRuntime) -> Result<(), Fail> {
    let alloc = rt.alloc();
    let mut tape = Tape::new(alloc, 7, 2, vec![in alloc; 4]?)?;
    let mut sure_tape = SureTape::new(alloc, 7)?;
    for (bytes, is_written, taken, kept) in [
        ("abc", true, "abc", "abc"),
        // The second write of these fails.
        ("defg", false, "abcde", "abcdefg"),
        // Two fit.
        ("hij", false, "abcdehi", "abcdefg"),
        ("k", false, "abcdehi", "abcdefg"),
    ] {
        assert_eq!(rt; write_out(&mut tape, bytes.as_bytes()).is_ok(), is_written);
        assert_eq!(rt; tape.taken(), taken.as_bytes());
        assert_eq!(rt; write_out(&mut sure_tape, bytes.as_bytes()), Ok(()));
        assert_eq!(rt; sure_tape.taken(), kept.as_bytes());
    }
    Ok(())
}

#[test]
fn an_output_is_written_to(rt: HostRuntime) {
    let mut room = [0; 5];
    let mut sink = OutSink::new(room.as_mut_slice());
    assert_eq!(rt; write_out(&mut sink, b"abc"), Ok(()));
    assert_eq!(rt; sink.faults(), 0);
    assert_eq!(rt; write_out(&mut sink, b"def"), Err(SinkFailed {}));
    assert_eq!(rt; sink.faults(), 1);
    assert_eq!(rt; room, *b"abcde");
}
