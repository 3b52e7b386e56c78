// Pupils as a session keeps them.
ghost use Rattle.std.specs.Prelude.{◌≡◌, ◌+◌, ◌<◌, ◌++◌, ◌∷◌, [], ℕ, Some, None, Err, length};
ghost use Rattle.std.specs.Prelude.{position, remove, set, slice_get, IfSome, IfOk, IfErr, OnOk};
ghost use Rattle.std.specs.Prelude.{OnErr};
ghost use Rattle.ls_theory.specs.{asked, reply_fault};
ghost use Rattle.ls_theory.specs.declared.reply_fault.ReplyFault.TheVariants.{WrongItem};
ghost use Rattle.ls_pupils.specs.Own.{is_called};
ghost use Rattle.ls_pupils.specs.Cases.{IsOwnCase, case_name};
ghost use Rattle.ls_pupils.specs.declared.cases.PupilCase.{PupilCase as Case};

use ls_assess::{Pupil, ReplyFault, Settings};
use ls_cutting::Word;
use ls_expert::Start;
use ls_set::QueryList;
use std::alloc::{AllocError, Global};
use std::marker::Model;

/// A pupil with its name; and the start, the Yes queries and the settings as they were when it
/// began.
#[derive(Drop)]
pub struct PupilCase {
    pub name: Word,
    pub start: Start,
    pub yes: QueryList,
    pub settings: Settings,
    pub pupil: Pupil,
}

/// Pupils, in the order in which they began. The one that was closed last is kept beside them, so
/// that its states needn't be listed again.
#[derive(Drop)]
pub struct PupilCases {
    cases: Vec<PupilCase>,
    closed: Option<PupilCase>,
}

impl Model for PupilCases {
    ghost use Rattle.std.specs.Prelude.{List};
    ghost use Rattle.std.specs.Option.{ForSome};
    ghost use Rattle.ls_pupils.specs.Cases.{IsOwnCase};
    ghost use Rattle.ls_pupils.specs.declared.cases.PupilCase.{PupilCase as Case};

    ghost Value = { List Case };

    ghost view = { λ l. l.cases.items };

    ghost invariant = { λ l. ForSome l.closed IsOwnCase };
}

impl PupilCases {
    /// No pupil. It takes no memory.
    pub fn new(alloc: Global) -> PupilCases
        ensures { result ≡ [] }
    {
        PupilCases {
            cases: Vec::new(alloc),
            closed: None,
        }
    }

    /// Puts a case last, unless memory runs out; nothing changes then.
    pub fn push(&mut self, case: PupilCase) -> Result<(), AllocError>
        ensures ok { OnOk result (self.new ≡ self.old ++ case ∷ []) }
        ensures err { OnErr result (self.new ≡ self.old) }
    {
        self.cases.push(case)?;
        Ok(())
    }

    /// The cases, in their order.
    pub fn as_slice(&self) -> &[PupilCase]
        ensures { result.now ≡ self.now }
    {
        &self.cases
    }

    /// The place of the first case of the name.
    pub fn place(&self, name: &Word) -> Option<usize>
        ensures { result ≡ position (is_called case_name name.now) self.now }
    {
        self.cases
            .iter()
            .position(|case| case.name.as_str() == name.as_str())
    }

    /// Takes out the case at a place. The others keep their order.
    pub fn remove(&mut self, place: usize)
        requires { place < length self.old }
        ensures { self.new ≡ remove self.old place }
    {
        let _ = self.cases.remove(place);
    }

    /// Takes out the case at a place, as [`PupilCases::remove`] does, and keeps it beside the
    /// others.
    pub fn close(&mut self, place: usize)
        requires place { place < length self.old }
        requires case { (c : Case) → slice_get self.old place ≡ Some c → IsOwnCase c }
        ensures { self.new ≡ remove self.old place }
    {
        self.closed = Some(self.cases.remove(place));
    }

    /// The case that was closed last, if one was.
    pub fn closed(&self) -> Option<&PupilCase>
        ensures { IfSome result (λ c. IsOwnCase c.now) }
    {
        self.closed.as_ref()
    }

    /// The pupil of the case at a place replies on the item `q`; how many replies it has then is
    /// told. Where the reply is refused nothing changes.
    pub fn reply(&mut self, place: usize, q: u32, right: bool) -> Result<usize, ReplyFault>
        requires { place < length self.old }
        ensures ok { (c : Case) → slice_get self.old place ≡ Some c →
            OnOk result (self.new ≡ set self.old place (record c {
              pupil = record c.pupil {
                replies = c.pupil.replies ++ record { q = q; right = right } ∷ [];
              };
            })) }
        ensures number { (c : Case) → slice_get self.old place ≡ Some c →
            IfOk result (λ number. number ≡ length c.pupil.replies + 1) }
        ensures taken { (c : Case) → slice_get self.old place ≡ Some c → OnOk result
            (reply_fault (asked c.pupil.settings c.pupil.states c.pupil.replies) q ≡ None) }
        ensures fault { (c : Case) → slice_get self.old place ≡ Some c → IfErr result (λ e.
            reply_fault (asked c.pupil.settings c.pupil.states c.pupil.replies) q ≡ Some e) }
        ensures item { (c : Case) (asked : ℕ) → slice_get self.old place ≡ Some c →
            result ≡ Err (WrongItem asked) → asked < length c.pupil.settings.ratios }
        ensures err { OnErr result (self.new ≡ self.old) }
    {
        let pupil = &mut self.cases[place].pupil;
        pupil.reply(q, right)?;
        Ok(pupil.replies().len())
    }
}
