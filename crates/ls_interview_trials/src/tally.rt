// What was tried, and the first of it that came out otherwise than wanted.

#[derive(Clone, Copy)]
pub(crate) struct Tally {
    pub(crate) wrong: Option<&'static str>,
}

impl Tally {
    pub(crate) fn new() -> Tally {
        Tally { wrong: None }
    }

    // Takes note of what was tried, which came out as wanted or not.
    pub(crate) fn want(&mut self, holds: bool, tried: &'static str) {
        if !holds && self.wrong.is_none() {
            self.wrong = Some(tried);
        }
    }
}
