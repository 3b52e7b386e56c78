// The objects in memory call by call.
use crate::tally::Tally;
use ls_edge::{
    Failed, FetchFault, LONGEST_FILE, MemShelf, MemSink, MemSource, Shelf, Sink, SinkFault, Source,
    StoreFault, SureShelf, SureSink, SureSource, write_whole,
};
use std::alloc::{AllocError, Global};
use std::test::Fail;

// The pieces in which `hello` is read, and what each of the first calls answers, of which the third
// fails.
const READS: [(usize, [Result<usize, Failed>; 7]); 3] = [
    (1, [Ok(1), Ok(1), Err(Failed), Ok(1), Ok(1), Ok(1), Ok(0)]),
    (2, [Ok(2), Ok(2), Err(Failed), Ok(1), Ok(0), Ok(0), Ok(0)]),
    (12, [Ok(5), Ok(0), Err(Failed), Ok(0), Ok(0), Ok(0), Ok(0)]),
];

// The pieces in which `hello` is written four times, how much of it each call takes but the third,
// which fails, and what is written then.
const WRITES: [(usize, usize, &str); 3] = [
    (1, 1, "hhh"),
    (2, 2, "hehehe"),
    (12, 5, "hellohellohello"),
];

// The call that fails of a write in pieces of 3, its answer, and what is written then.
const WHOLE_WRITES: [(u64, Result<(), SinkFault>, &str); 3] = [
    (9, Ok(()), "hello"),
    (2, Err(SinkFault::Failed), "hel"),
    (1, Err(SinkFault::Failed), ""),
];

// Whether the source answers as is wanted; what it gives is seen.
fn reads<S: Source>(
    source: &mut S,
    answers: &[Result<usize, Failed>],
    seen: &mut Vec<u8>,
) -> Result<bool, AllocError> {
    let mut holds = true;
    for answer in answers {
        let mut buf = [0; 12];
        let read = source.read(&mut buf);
        holds = holds && read == *answer;
        if let Ok(count) = read {
            seen.extend_from_slice(&buf[..count])?;
        }
    }
    Ok(holds)
}

fn sources(tally: &mut Tally, alloc: Global) -> Result<(), AllocError> {
    for (piece, answers) in &READS {
        let mut source = MemSource::new(b"hello".to_vec(alloc)?, *piece, vec![in alloc; 3]?);
        let mut seen = Vec::new(alloc);
        let holds = reads(&mut source, answers, &mut seen)?;
        tally.want(holds && seen.as_slice() == b"hello".as_slice(), "a source");
    }
    Ok(())
}

// Whether the sink takes so many bytes in each of two calls, and the third fails.
fn writes<K: Sink>(sink: &mut K, count: usize) -> bool {
    sink.write(b"hello") == Ok(count)
        && sink.write(b"hello") == Ok(count)
        && sink.write(b"hello") == Err(SinkFault::Failed)
}

fn sinks(tally: &mut Tally, alloc: Global) -> Result<(), AllocError> {
    for (piece, count, written) in &WRITES {
        let mut sink = MemSink::new(alloc, *piece, vec![in alloc; 3]?);
        let holds = writes(&mut sink, *count) && sink.write(b"hello") == Ok(*count);
        tally.want(holds && sink.written() == written.as_bytes(), written);
    }
    for (fails, answer, written) in &WHOLE_WRITES {
        let mut sink = MemSink::new(alloc, 3, vec![in alloc; *fails]?);
        let holds = write_whole(&mut sink, b"hello") == *answer;
        tally.want(holds && sink.written() == written.as_bytes(), written);
    }
    Ok(())
}

fn sure_objects(tally: &mut Tally, alloc: Global) -> Result<(), AllocError> {
    let mut source = SureSource::new(b"hello".to_vec(alloc)?, 2);
    let mut seen = Vec::new(alloc);
    let holds = reads(&mut source, &[Ok(2), Ok(2), Ok(1), Ok(0)], &mut seen)?;
    let mut sink = SureSink::new(alloc, 2);
    let is_whole = write_whole(&mut sink, &seen).is_ok();
    tally.want(
        holds && is_whole && sink.written() == b"hello".as_slice(),
        "sure objects",
    );
    Ok(())
}

// What the shelf has under a name, as `fetch` answers.
fn holds<H: Shelf>(shelf: &mut H, name: &str, want: Result<&[u8], FetchFault>) -> bool {
    match (shelf.fetch(name), want) {
        (Ok(bytes), Ok(want)) => bytes.as_slice() == want,
        (Err(fault), Err(want)) => fault == want,
        _ => false,
    }
}

fn names(tally: &mut Tally, alloc: Global) {
    let mut shelf = SureShelf::new(alloc);
    let missing = Err(FetchFault::Missing);
    tally.want(holds(&mut shelf, "one", missing), "no file yet");
    let stores = shelf.store("one", b"first").is_ok() && shelf.store("two", b"second").is_ok();
    tally.want(stores && holds(&mut shelf, "one", Ok(b"first")), "a file");
    tally.want(shelf.store("one", b"").is_ok(), "an empty file");
    tally.want(holds(&mut shelf, "one", Ok(b"")), "an empty file is given");
    tally.want(holds(&mut shelf, "two", Ok(b"second")), "the other file");
    tally.want(holds(&mut shelf, "three", missing), "no third file");
}

// Whether the shelf gives back the longest file, and refuses one of a byte more.
fn limit_holds<H: Shelf>(alloc: Global, shelf: &mut H) -> Result<bool, AllocError> {
    let mut bytes = vec![in alloc; 7; LONGEST_FILE]?;
    let is_stored = shelf.store("long", &bytes).is_ok() && holds(shelf, "long", Ok(&bytes));
    bytes.push(7)?;
    let more = FetchFault::TooLarge { bytes: 16_777_217 };
    Ok(is_stored && shelf.store("long", &bytes).is_ok() && holds(shelf, "long", Err(more)))
}

// Calls 1, 3 and 4 are to fail; call 1 has no file to give, so it doesn't.
fn failing_calls(tally: &mut Tally, alloc: Global) -> Result<(), AllocError> {
    let mut shelf = MemShelf::new(alloc, vec![in alloc; 1, 3, 4]?);
    shelf.put("one", b"first")?;
    tally.want(holds(&mut shelf, "two", Err(FetchFault::Missing)), "call 1");
    tally.want(holds(&mut shelf, "one", Ok(b"first")), "call 2");
    tally.want(holds(&mut shelf, "one", Err(FetchFault::Failed)), "call 3");
    tally.want(
        shelf.store("one", b"second") == Err(StoreFault::Failed),
        "call 4",
    );
    tally.want(holds(&mut shelf, "one", Ok(b"first")), "call 5");
    tally.want(shelf.store("one", b"second").is_ok(), "call 6");
    tally.want(holds(&mut shelf, "one", Ok(b"second")), "call 7");
    Ok(())
}

#[test]
fn objects_in_memory_do_as_they_are_told(rt: HostRuntime) -> Result<(), Fail> {
    let mut tally = Tally::new();
    let alloc = rt.alloc();
    sources(&mut tally, alloc)?;
    sinks(&mut tally, alloc)?;
    sure_objects(&mut tally, alloc)?;
    names(&mut tally, alloc);
    tally.want(
        limit_holds(alloc, &mut SureShelf::new(alloc))?,
        "a long file",
    );
    failing_calls(&mut tally, alloc)?;
    assert_eq!(rt; tally.wrong, None);
    Ok(())
}
