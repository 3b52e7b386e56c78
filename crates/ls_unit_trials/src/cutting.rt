// Streams that are cut into lines.
use crate::tally::Tally;
use ls_lines::{Cutter, Ended, LONGEST_LINE};

// Gives a piece to the cutter, which takes so many bytes of it, and then has that line.
fn take(
    tally: &mut Tally,
    cutter: &mut Cutter,
    piece: &[u8],
    taken: (usize, Option<Ended>),
    line: &[u8],
) {
    let holds = cutter.take(piece) == taken && cutter.line() == line;
    tally.want(holds, "a piece of a stream");
}

// Ends the stream, and then the cutter has that line.
fn finish(tally: &mut Tally, cutter: &mut Cutter, ended: Option<Ended>, line: &[u8]) {
    let holds = cutter.finish() == ended && cutter.line() == line;
    tally.want(holds, "the end of a stream");
}

fn short_lines(tally: &mut Tally, cutter: &mut Cutter) {
    finish(tally, cutter, None, b"");

    // Two lines in one piece, and the beginning of a third.
    let piece = b"ab\n\ncd";
    take(tally, cutter, piece, (3, Some(Ended::Whole)), b"ab");
    take(tally, cutter, &piece[3..], (1, Some(Ended::Whole)), b"");
    take(tally, cutter, &piece[4..], (2, None), b"");
    take(tally, cutter, b"e\n", (2, Some(Ended::Whole)), b"cde");

    // The last line has no line end, and there is one of it.
    take(tally, cutter, b"f", (1, None), b"");
    finish(tally, cutter, Some(Ended::Whole), b"f");
    finish(tally, cutter, None, b"f");
}

fn longest_lines(tally: &mut Tally, cutter: &mut Cutter) {
    let longest = &[b'a'; LONGEST_LINE];
    take(tally, cutter, longest, (65_536, None), b"");
    take(tally, cutter, b"\n", (1, Some(Ended::Whole)), longest);

    // One byte more, and then a line that is read again.
    take(tally, cutter, longest, (65_536, None), b"");
    take(
        tally,
        cutter,
        b"b\nc",
        (2, Some(Ended::Long { bytes: 65_537 })),
        b"",
    );
    take(tally, cutter, b"c", (1, None), b"");
    finish(tally, cutter, Some(Ended::Whole), b"c");
}

#[test]
fn streams_are_cut(rt: HostRuntime) {
    let mut tally = Tally::new();
    match Cutter::new(rt.alloc()) {
        Ok(mut cutter) => {
            short_lines(&mut tally, &mut cutter);
            longest_lines(&mut tally, &mut cutter);
        }
        Err(_) => tally.want(false, "memory"),
    }
    assert_eq!(rt; tally.wrong, None);
}
