// Commands that fetch or store a file, where a domain stands.
ghost use Rattle.ls_meaning.specs.{Session, answers, changes_interview, class_row, file_effect};
ghost use Rattle.ls_meaning.specs.{in_domain, refuse, save_row, start_row, stores, test_row};
ghost use Rattle.ls_state.specs.Decides.{Decides, shelf_state};

use crate::state::State;
use ls_cutting::Word;
use ls_deciding::{fetch, start_from, test_sets};
use ls_edge::{LONGEST_FILE, Shelf, StoreFault};
use ls_interior::Steps;
use ls_lines::FileCommand;
use ls_meaning::{Refusal, Response, SkillModel, StartFile};
use ls_pupils::assess_class;
use ls_store::print_parts;
use std::alloc::{AllocError, Global};
use std::sync::ledger::Ledger;
use std::thread::Threads;

impl State {
    /// Carries out a command that fetches or stores a file. Where memory runs out nothing changes.
    pub fn file<R: Threads + Sync, H: Shelf, L: Ledger>(
        &mut self,
        rt: &R,
        command: &FileCommand,
        shelf: &mut H,
        steps: &mut Steps<L>,
    ) -> Result<Response, AllocError>
        ensures { let s = self.old in
            Decides (λ calls. in_domain s (file_effect s calls command.now)) s self.new
            (shelf_state H.Shelf shelf.old) (shelf_state H.Shelf shelf.new) result }
    {
        match command {
            FileCommand::StartSurmise { file } => {
                self.load_start(StartFile::Surmise, file, shelf, steps)
            }
            FileCommand::StartBase { file } => {
                self.load_start(StartFile::Base, file, shelf, steps)
            }
            FileCommand::StartRelation { file } => {
                self.load_start(StartFile::Relation, file, shelf, steps)
            }
            FileCommand::Test { file } => self.test(rt, file, shelf),
            FileCommand::Class { file } => self.class(rt, file, shelf, steps),
            FileCommand::Save { file } => self.save(file, shelf),
            FileCommand::SkillsAny { file, count, after } => {
                self.skills(SkillModel::Disjunctive, file, *count, after, shelf)
            }
            FileCommand::SkillsAll { file, count, after } => {
                self.skills(SkillModel::Conjunctive, file, *count, after, shelf)
            }
            FileCommand::Mesh {
                left,
                right,
                count,
                after,
            } => self.mesh(left, right, *count, after, shelf),
            FileCommand::MeshAgree { left, right } => self.mesh_agree(left, right, shelf),
        }
    }

    // `start surmise FILE`, `start base FILE` and `start relation FILE`. It is not made part of its
    // caller, since its frame is large.
    #[inline(never)]
    fn load_start<H: Shelf, L: Ledger>(
        &mut self,
        kind: StartFile,
        file: &Word,
        shelf: &mut H,
        steps: &mut Steps<L>,
    ) -> Result<Response, AllocError>
        ensures { let s = self.old in
            Decides (λ calls. in_domain s
            (changes_interview s (start_row kind s (calls.file file.now)))) s self.new
            (shelf_state H.Shelf shelf.old) (shelf_state H.Shelf shelf.new) result }
    {
        if !self.inquiry.standing().is_empty() {
            return Ok(Response::Refused(Refusal::AnswersStand));
        }
        match fetch(file, shelf)? {
            Ok(bytes) => start_from(
                self.alloc,
                self.texts.domain(),
                kind,
                &bytes,
                &mut self.inquiry,
                &mut self.trail,
                steps,
            ),
            Err(refusal) => Ok(Response::Refused(refusal)),
        }
    }

    // `test FILE`. It is not made part of its caller, as `load_start` isn't.
    #[inline(never)]
    fn test<R: Threads + Sync, H: Shelf>(
        &self,
        rt: &R,
        file: &Word,
        shelf: &mut H,
    ) -> Result<Response, AllocError>
        ensures { let s = self.now in
            Decides (λ calls. in_domain s (answers s (test_row s.names (calls.file file.now))))
            s s (shelf_state H.Shelf shelf.old) (shelf_state H.Shelf shelf.new) result }
    {
        let domain = self.texts.domain();
        match fetch(file, shelf)? {
            Ok(bytes) => test_sets(rt, self.alloc, domain, &bytes),
            Err(refusal) => Ok(Response::Refused(refusal)),
        }
    }

    // `class FILE`. It is not made part of its caller, as `load_start` isn't.
    #[inline(never)]
    fn class<R: Threads + Sync, H: Shelf, L: Ledger>(
        &self,
        rt: &R,
        file: &Word,
        shelf: &mut H,
        steps: &mut Steps<L>,
    ) -> Result<Response, AllocError>
        ensures { let s = self.now in
            Decides (λ calls. in_domain s
            (answers s (class_row s.interview s.settings s.names (calls.file file.now))))
            s s (shelf_state H.Shelf shelf.old) (shelf_state H.Shelf shelf.new) result }
    {
        let domain = self.texts.domain();
        let settings = &self.settings;
        match fetch(file, shelf)? {
            Ok(bytes) => {
                assess_class(
                    rt,
                    self.alloc,
                    domain,
                    &self.inquiry,
                    settings,
                    &bytes,
                    steps,
                )
            }
            Err(refusal) => Ok(Response::Refused(refusal)),
        }
    }

    // `save FILE`. It is not made part of its caller, as `load_start` isn't.
    #[inline(never)]
    fn save<H: Shelf>(&self, file: &Word, shelf: &mut H) -> Result<Response, AllocError>
        ensures { let s = self.now in
            Decides (λ calls. in_domain s (save_row s calls.failed file.now)) s s
            (shelf_state H.Shelf shelf.old) (shelf_state H.Shelf shelf.new) result }
    {
        let text = print_parts(
            self.alloc,
            self.texts.domain(),
            &self.inquiry,
            &self.settings,
            &self.pupils,
        )?;
        if text.len() > LONGEST_FILE {
            let bytes = text.len() as u64;
            return Ok(Response::Refused(Refusal::LargeFile { bytes }));
        }
        store(file, &text, shelf)
    }
}

// Keeps a text that is not too long as the file of the name.
fn store<H: Shelf>(file: &Word, text: &[u8], shelf: &mut H) -> Result<Response, AllocError>
    ensures { (s : Session) →
        Decides (λ calls. stores s (refuse Refusal.FileFailed calls.failed) file.now text.now) s s
        (shelf_state H.Shelf shelf.old) (shelf_state H.Shelf shelf.new) result }
{
    match shelf.store(file.as_str(), text) {
        Ok(()) => Ok(Response::Done {
            number: text.len() as u64,
        }),
        Err(StoreFault::Failed) => Ok(Response::Refused(Refusal::FileFailed)),
        Err(StoreFault::Memory(e)) => Err(e),
    }
}
