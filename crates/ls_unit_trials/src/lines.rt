// Lines that are read as commands, which are printed again.
use crate::tally::Tally;
use ls_lines::{Command, LONGEST_LINE, LineFault, print_command, read_command};
use std::alloc::Global;

// Lines, each with what its command is printed as, or else with the number of the first word with
// which no command goes on.
const LINES: &str = "\
yes a,b:c\r => yes a b : c
yes\ta , b :c => yes a b : c
yes : b => yes : b
no after : a => no after : a
known a,a:b => known a a : b
items => items
items a b.2 C-3 d_4 => items a b.2 C-3 d_4
load-items a.csv => load-items a.csv
start surmise f => start surmise f
start base f => start base f
blocks 2 => blocks 2
retract 999999999 => retract 999999999
ask => ask
states => states 65536
states 0 => states 0
states 2 after ~! => states 2 after ~!
base => base
surmise => surmise
learning => learning
project 7:a b => project 7 : a b
project 7 after 3f : a => project 7 after 3f : a
project-base a => project-base a
test f => test f
fringes => fringes
state-of a|b c => state-of a | b c
paths 3 => paths 3
paths 3 after => paths 3 after
paths 3 after a b => paths 3 after a b
odds 8 8 => odds 8 8
odds 8 8 9 => odds 8 8 9
ratio 3 2 3 2 => ratio 3 2 3 2
ratio a 9 2 5 4 => ratio a 9 2 5 4
limits 30 90 => limits 30 90
pupil ann => pupil ann
question ann => question ann
reply ann a right => reply ann a right
reply ann a wrong => reply ann a wrong
report ann => report ann
close ann => close ann
class f => class f
save f => save f
open f => open f
items aaaaaaaaaaaaaaaaaaaaaaaaaaaaaaaaaaaaaaaa => items aaaaaaaaaaaaaaaaaaaaaaaaaaaaaaaaaaaaaaaa
 =>
\r =>
 ,,  =>
 \t# note =>
items\r\r => 1
,# note => 1
foo => 1
Items => 1
states x => 2
states 65537 => 2
states 07 => 2
states +7 => 2
states 2 after => 4
retract 1000000000 => 2
save .f => 2
reply ann a Right => 4
project 3 after : a => 4
yes a b => 4
yes a : b c => 5
yes a|b => 3
ratio 3 2 3 => 5
items é => 2
items aaaaaaaaaaaaaaaaaaaaaaaaaaaaaaaaaaaaaaaaa => 2
";

// Whether the line is read as a command that is printed so, or has its fault at that place.
fn is_read(alloc: Global, line: &[u8], want: &str) -> bool {
    if line.len() > LONGEST_LINE {
        return false;
    }
    match read_command(alloc, line) {
        Ok(command) => is_printed(alloc, &command, want),
        Err(LineFault::Shape { place }) => is_number(want, place),
        Err(LineFault::Memory(_)) => false,
    }
}

fn is_number(text: &str, number: u32) -> bool {
    match text.parse::<u32>() {
        Ok(read) => read == number,
        Err(_) => false,
    }
}

fn is_printed(alloc: Global, command: &Command, want: &str) -> bool {
    match print_command(alloc, command) {
        Ok(text) => text.as_slice() == want.as_bytes(),
        Err(_) => false,
    }
}

#[test]
fn lines_are_read_and_printed(rt: HostRuntime) {
    let mut tally = Tally::new();
    for row in LINES.lines() {
        let holds = match row.split_once(" =>") {
            Some((line, want)) => is_read(rt.alloc(), line.as_bytes(), want.trim_start()),
            None => false,
        };
        tally.want(holds, row);
    }
    assert_eq!(rt; tally.wrong, None);
}
