//! Large files, which are read in parts: each line has its number, and the first refused line is told.
use ca_cmd::{FileFault, LineWhy, Lines, read_on_threads};
use ca_ets::Cmd;
use ca_text::{print_term, put, put_number};
use std::alloc::{AllocError, Global};
use std::test::Fail;
use std::thread::Threads;

// How many lines the file has, about as many bytes as ten parts.
const LINES: u32 = 30_000;

// A file of so many lines. Every seventh one is a comment, and each other one puts its own number; from the first bad one on every thousandth is refused.
fn file_of(alloc: Global, bad: u32) -> Result<Vec<u8>, AllocError> {
    let mut file = Vec::new(alloc);
    for number in 1..=LINES {
        if number >= bad && number % 1_000 == bad % 1_000 {
            put(b"no {", &mut file)?;
        } else if number % 7 == 0 {
            put(b"% {", &mut file)?;
        } else {
            put(b"insert {", &mut file)?;
        }
        put_number(u64::from(number), &mut file)?;
        put(b"}\n", &mut file)?;
    }
    Ok(file)
}

// What the file with such bad lines is read as.
fn read<R: Threads + Sync>(
    rt: &R,
    alloc: Global,
    bad: u32,
) -> Result<Result<Lines, FileFault>, AllocError> {
    let file = file_of(alloc, bad)?;
    if file.len() < 400_000 || file.len() > 1_000_000 {
        return Err(AllocError);
    }
    Ok(read_on_threads(rt, alloc, file))
}

// Whether a command puts the object of this number alone.
fn puts(alloc: Global, cmd: &Cmd, number: u32) -> Result<bool, AllocError> {
    let mut wanted = Vec::new(alloc);
    put(b"{", &mut wanted)?;
    put_number(u64::from(number), &mut wanted)?;
    put(b"}", &mut wanted)?;
    let mut text = Vec::new(alloc);
    match cmd {
        Cmd::Insert(object) => print_term(object, &mut text)?,
        _ => return Ok(false),
    }
    Ok(text.as_slice() == wanted.as_slice())
}

#[test]
fn each_line_of_a_large_file_has_its_number_and_its_command(rt: HostRuntime) -> Result<(), Fail> {
    let alloc = rt.alloc();
    let Ok(lines) = read(&rt, alloc, LINES + 1)? else {
        assert!(rt; false);
        return Ok(());
    };
    let mut at = 0_usize;
    for number in 1..=LINES {
        if number % 7 != 0 && at < lines.len() {
            let line = lines.line(alloc, at)?;
            assert_eq!(rt; (line.number, lines.number(at)), (number, number));
            assert!(rt; puts(alloc, &line.cmd, number)?);
            at += 1;
        }
    }
    assert_eq!(rt; (at, lines.len()), (25_715, 25_715));
    Ok(())
}

#[test]
fn the_first_refused_line_of_a_large_file_is_told(rt: HostRuntime) -> Result<(), Fail> {
    let alloc = rt.alloc();
    for bad in [1, 14_999, 29_999] {
        let fault = read(&rt, alloc, bad)?.err();
        let wanted = FileFault::BadLine {
            line: bad,
            at: 1,
            why: LineWhy::UnknownWord,
        };
        assert_eq!(rt; fault, Some(wanted));
    }
    Ok(())
}
