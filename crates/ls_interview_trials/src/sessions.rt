// A session of its own: read, printed again, and looked at.
ghost use Rattle.std.specs.Prelude.{◌≡◌, length};

use crate::tally::Tally;
use ls_edge::SureSink;
use ls_interior::Steps;
use ls_lines::ViewCommand;
use ls_store::{Saved, print_session, read_session};
use ls_views::view;
use std::alloc::Global;
use std::marker::Brand;
use std::sync::ledger::{Blank, Ledger};

// Who fails a fails b too.
const SESSION: &str = "{\"answers\":[[1,true,\"8\",1]],\"block\":1,\"items\":[\"a\",\"b\",\"c\"],\
    \"limits\":[30,90],\"next\":2,\"odds\":[[[8,1],[8,1]],[[8,1],[8,1]],[[8,1],[8,1]]],\
    \"pupils\":[],\"start\":\"free\",\"version\":2}";

const STATES: &str = "\
set e {a b c}
set c {a b}
set a {a c}
more yes
";

// Whether the first states of the session are shown.
fn are_shown<L: Ledger>(alloc: Global, saved: &Saved, steps: &mut Steps<L>) -> bool
    requires { length saved.now.domain ≡ saved.now.interview.count }
{
    let command = ViewCommand::States {
        count: 3,
        after: None,
    };
    let mut out = SureSink::new(alloc, 100);
    let shown = view(
        alloc,
        &saved.domain,
        &saved.interview,
        &command,
        &mut out,
        steps,
    );
    shown == Ok(false) && out.written() == STATES.as_bytes()
}

fn sessions<L: Ledger>(tally: &mut Tally, alloc: Global, blank: Blank)
    requires name { blank.name ≡ L.name }
    requires parts { blank.parts ≡ L.parts }
    requires one { blank.parts ≡ 1 }
{
    let mut steps = Steps::<L>::new(blank);
    let Ok(saved) = read_session(alloc, SESSION.as_bytes(), &mut steps) else {
        return tally.want(false, "a session that is read");
    };
    let is_printed = match print_session(alloc, &saved) {
        Ok(text) => text.as_slice() == SESSION.as_bytes(),
        Err(_) => false,
    };
    tally.want(is_printed, "a session that is printed");
    tally.want(are_shown(alloc, &saved, &mut steps), STATES);
}

#[test]
fn sessions_are_read_and_printed(rt: HostRuntime) {
    let mut tally = Tally::new();
    sessions::<Brand>(&mut tally, rt.alloc(), Blank::new(1));
    assert_eq!(rt; tally.wrong, None);
}
