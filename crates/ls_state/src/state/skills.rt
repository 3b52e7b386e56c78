// Pages of the states that a skill map delineates.
ghost use Rattle.std.specs.Prelude.{length};
ghost use Rattle.ls_meaning.specs.{after_of, answers, in_domain};
ghost use Rattle.ls_meaning.specs.SkillRows.{skills_row};
ghost use Rattle.ls_state.specs.Decides.{Decides, shelf_state};

use crate::state::State;
use ls_cutting::Word;
use ls_deciding::{delineate, fetch};
use ls_edge::Shelf;
use ls_meaning::{Refusal, Response, SkillModel};
use ls_resolve::read_after;
use std::alloc::AllocError;

impl State {
    // `skills any FILE COUNT` and `skills all FILE COUNT`, and the same with `after CURSOR`. It is
    // not made part of its caller, as `load_start` isn't.
    #[inline(never)]
    pub(super) fn skills<H: Shelf>(
        &self,
        model: SkillModel,
        file: &Word,
        count: u32,
        after: &Option<Word>,
        shelf: &mut H,
    ) -> Result<Response, AllocError>
        ensures { let s = self.now in
            Decides (λ calls. in_domain s (answers s (skills_row model s.names
            (calls.file file.now) count (after_of (length s.names) after.now)))) s s
            (shelf_state H.Shelf shelf.old) (shelf_state H.Shelf shelf.new) result }
    {
        let domain = self.texts.domain();
        let after = match read_after(domain.count(), after) {
            Ok(after) => after,
            Err(fault) => return Ok(Response::Refused(Refusal::Cursor(fault))),
        };
        match fetch(file, shelf)? {
            Ok(bytes) => delineate(self.alloc, domain, model, &bytes, count, after),
            Err(refusal) => Ok(Response::Refused(refusal)),
        }
    }
}
