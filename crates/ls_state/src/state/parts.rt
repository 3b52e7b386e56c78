// Meshes of the parts of two files.
ghost use Rattle.std.specs.Prelude.{length};
ghost use Rattle.ls_meaning.specs.{after_of, answers, in_domain};
ghost use Rattle.ls_meaning.specs.MeshRows.{mesh_agree_row, mesh_row};
ghost use Rattle.ls_state.specs.Decides.{Decides, shelf_state};

use crate::state::State;
use ls_cutting::Word;
use ls_deciding::{agreement, fetch_both, page_of_mesh};
use ls_edge::Shelf;
use ls_meaning::{Refusal, Response};
use ls_resolve::read_after;
use std::alloc::AllocError;

impl State {
    // `mesh FILE FILE COUNT` and `mesh FILE FILE COUNT after CURSOR`. It is not made part of its
    // caller, as `load_start` isn't.
    #[inline(never)]
    pub(super) fn mesh<H: Shelf>(
        &self,
        left: &Word,
        right: &Word,
        count: u32,
        after: &Option<Word>,
        shelf: &mut H,
    ) -> Result<Response, AllocError>
        ensures { let s = self.now in
            Decides (λ calls. in_domain s (answers s (mesh_row s.names (calls.file left.now)
            (calls.file right.now) count (after_of (length s.names) after.now)))) s s
            (shelf_state H.Shelf shelf.old) (shelf_state H.Shelf shelf.new) result }
    {
        let domain = self.texts.domain();
        let after = match read_after(domain.count(), after) {
            Ok(after) => after,
            Err(fault) => return Ok(Response::Refused(Refusal::Cursor(fault))),
        };
        match fetch_both(left, right, shelf)? {
            Ok(files) => page_of_mesh(self.alloc, domain, &files, count, after),
            Err(refusal) => Ok(Response::Refused(refusal)),
        }
    }

    // `mesh-agree FILE FILE`. It is not made part of its caller, as `load_start` isn't.
    #[inline(never)]
    pub(super) fn mesh_agree<H: Shelf>(
        &self,
        left: &Word,
        right: &Word,
        shelf: &mut H,
    ) -> Result<Response, AllocError>
        ensures { let s = self.now in
            Decides (λ calls. in_domain s (answers s (mesh_agree_row s.names
            (calls.file left.now) (calls.file right.now)))) s s
            (shelf_state H.Shelf shelf.old) (shelf_state H.Shelf shelf.new) result }
    {
        let domain = self.texts.domain();
        match fetch_both(left, right, shelf)? {
            Ok(files) => agreement(self.alloc, domain, &files),
            Err(refusal) => Ok(Response::Refused(refusal)),
        }
    }
}
