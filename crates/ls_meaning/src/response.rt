// Replies as values.
use crate::families::{DualStates, MeshStates, SurmiseClauses, UnionStates};
use crate::faults::{
    answer_notice, base_notice, block_notice, cause_word, cursor_notice, domain_notice,
    reply_notice, safe_notice, sets_notice, surmise_notice,
};
use crate::file_faults::{mesh_notice, pair_notice, part_notice, skill_notice};
use crate::notices::{Detail, Notice};
use ls_domain::DomainFault;
use ls_files::{Cause, FamilyFault, Results};
use ls_origins::{Covers, MeshFault, PairFault, RelationFault, SafeAnswers, SafeFault, SkillFault};
use ls_set::{CursorFault, ItemList, ItemSet, Query, SetList};
use ls_theory::{
    AnswerFault, Asked, BaseFault, BaseVerdict, BlockFault, FringePair, Known, Outcome, ReplyFault,
    SurmiseFault, Verdict,
};

/// What a line is answered. The lines of the reply follow from it and from the session.
#[derive(Drop)]
pub enum Response {
    /// No line.
    Silence,
    Refused(Refusal),
    /// The command was carried out, with the number that it tells.
    Done {
        number: u64,
    },
    /// The command was carried out, and there is no number to tell.
    Agreed,
    /// The safe interview accepted an answer, which has the number. So many answers are applied,
    /// and so many wait.
    Accepted {
        number: u64,
        applied: u64,
        pending: u64,
    },
    Shown(Shown),
}

impl Response {
    ghost use Rattle.std.specs.Prelude.{◌≡◌};
    ghost use Rattle.ls_meaning.specs.Replies.{is_refused};

    /// Whether it is a refusal.
    pub fn is_refused(&self) -> bool
        ensures { result ≡ is_refused self.now }
    {
        matches!(self, Response::Refused(_))
    }
}

/// What is shown of an interview, of a file or of a pupil.
#[derive(Drop)]
pub enum Shown {
    /// What the answers tell of a query.
    Known(Known),
    /// The next question, if one is open.
    Question(Option<Query>),
    /// At most `count` states, those after a set or the first ones, and whether a further one
    /// follows.
    States {
        count: u32,
        after: Option<ItemSet>,
    },
    /// The base of the states.
    Base {
        sets: SetList,
    },
    /// The surmise function of the states: for each item the atoms at it.
    Surmise(SurmiseClauses),
    /// Whether the states are a learning space.
    Learning(BaseVerdict),
    /// At most `count` states of the projection on a part of the items, those after a set or the
    /// first ones, and whether a further one follows.
    Projected {
        part: ItemSet,
        count: u32,
        after: Option<ItemSet>,
    },
    /// The base of a projection, and whether that is a learning space.
    ProjectedBase {
        base: SetList,
        verdict: BaseVerdict,
    },
    /// The fringes of a state.
    Fringes(FringePair),
    /// A state.
    State(ItemSet),
    /// At most `count` learning paths, those after an order of the items or the first ones, and
    /// whether a further one follows.
    Paths {
        count: u32,
        after: Option<ItemList>,
    },
    /// The verdict on the family of a file.
    Tested(Verdict),
    /// What a pupil is asked, or why its assessment is over.
    Asked(Asked),
    /// What is known of a pupil, and the fringes of the state.
    Report {
        outcome: Outcome,
        fringes: FringePair,
    },
    /// What is known of the pupils of a class when their assessments are over.
    Class(Results),
    /// The least skill map of the states: a skill for each set of the base.
    SkillMap {
        base: SetList,
    },
    /// What keeps the surmise function of the states from being a relation.
    NoRelation(RelationFault),
    /// The covers of the surmise relation of the states.
    Covers(Covers),
    /// At most `count` of the states that sets span, those after a set or the first ones, and
    /// whether a further one follows.
    Unions {
        states: UnionStates,
        count: u32,
        after: Option<ItemSet>,
    },
    /// The same of the complements of such states.
    Duals {
        states: DualStates,
        count: u32,
        after: Option<ItemSet>,
    },
    /// The same of the mesh of two parts.
    Mesh {
        states: MeshStates,
        count: u32,
        after: Option<ItemSet>,
    },
    /// Whether two parts agree on the items of both.
    Agree(bool),
    /// The answers of the safe interview, each with a mark where it is applied.
    SafeAnswers(SafeAnswers),
}

/// Why a line is refused.
#[derive(Clone, Copy)]
pub enum Refusal {
    /// The line is no command: no command begins with its words up to this place, counted from 1.
    NoCommand {
        place: u32,
    },
    /// The line has so many bytes, more than a line that is read.
    LongLine {
        bytes: u64,
    },
    /// A domain stands already.
    DomainStands,
    /// The names are no domain.
    Domain(DomainFault),
    /// An answer stands, so the interview can't begin with another start.
    AnswersStand,
    /// The surmise file gives no start.
    StartSurmise(SurmiseFault),
    /// The base file is no list of sets.
    StartSets(FamilyFault),
    /// The sets of the base file give no start.
    StartBase(BaseFault),
    /// The word at this place must name an item and doesn't; at place 0, no domain stands.
    Unnamed {
        place: usize,
    },
    /// The blocks can't be made.
    Block(BlockFault),
    /// The answer can't be taken, or the query can't be asked.
    Answer(AnswerFault),
    /// No standing answer has the number.
    NotStanding,
    /// The text is no cursor.
    Cursor(CursorFault),
    /// The base had too many sets under the first `position` Yes answers, and `count` then.
    Past {
        position: usize,
        count: usize,
    },
    /// The folder lacks the file.
    NoFile,
    /// A call on the folder failed.
    FileFailed,
    /// The file has so many bytes, more than a file that is read.
    LargeFile {
        bytes: u64,
    },
    /// The file that is tested is no list of sets.
    TestedSets(FamilyFault),
    /// The set is no state.
    NotState,
    /// The states are no learning space: a set of the base is an atom at both items.
    NotLearning {
        set: ItemSet,
        first: u32,
        second: u32,
    },
    /// No state has these two fringes.
    NoState,
    /// The words aren't all items, each once.
    NotOrder,
    /// A pupil would have too many states.
    ManyStates,
    /// The numbers of the assessment may be too great after so many replies.
    Heavy {
        replies: u32,
    },
    /// Too many pupils stand.
    ManyPupils,
    /// A pupil has the name.
    PupilStands,
    /// No pupil has the name.
    NoPupil,
    /// The reply can't be taken.
    Reply(ReplyFault),
    /// A ratio, the most replies or the share is out of its range.
    BadSetting,
    /// The record of this number is the first bad one of the class table.
    BadClass {
        row: u32,
    },
    /// The file is no saved session.
    BadSession {
        cause: Cause,
    },
    /// The file is no skill map.
    Skills(SkillFault),
    /// The file of a side, which is 1 or 2, is no list of sets.
    PartSets {
        side: u32,
        fault: FamilyFault,
    },
    /// The two parts have no mesh.
    Mesh(MeshFault),
    /// The file of pairs gives no start.
    StartRelation(PairFault),
    /// A safe interview stands already.
    SafeStands,
    /// No safe interview stands.
    NoSafe,
    /// The safe interview doesn't take the answer.
    Safe(SafeFault),
}

impl Refusal {
    ghost use Rattle.std.specs.Prelude.{◌≡◌};
    ghost use Rattle.ls_meaning.specs.Refusals.{refusal_notice};
    ghost use Rattle.ls_meaning.specs.Notices.{notice_of};

    /// What is told of it: its code, and its details.
    #[tactic(auto)]
    pub fn notice(&self) -> Notice
        ensures { notice_of result ≡ refusal_notice self.now }
    {
        match *self {
            Refusal::NoCommand { place } => Notice::number(10, u64::from(place)),
            Refusal::LongLine { bytes } => Notice::counted(10, "long", bytes),
            Refusal::DomainStands => Notice::bare(11),
            Refusal::Domain(fault) => domain_notice(fault),
            Refusal::AnswersStand => Notice::bare(13),
            Refusal::StartSurmise(fault) => surmise_notice(fault),
            Refusal::StartSets(fault) => sets_notice(14, fault),
            Refusal::StartBase(fault) => base_notice(fault),
            Refusal::Unnamed { place } => Notice::number(15, place as u64),
            Refusal::Block(fault) => block_notice(fault),
            Refusal::Answer(fault) => answer_notice(fault),
            Refusal::NotStanding => Notice::bare(23),
            Refusal::Cursor(fault) => cursor_notice(fault),
            Refusal::Past { position, count } => {
                Notice::new(
                    25,
                    &[
                        Detail::Number(position as u64),
                        Detail::Number(count as u64),
                    ],
                )
            }
            Refusal::NoFile => Notice::bare(26),
            Refusal::FileFailed => Notice::bare(27),
            Refusal::LargeFile { bytes } => Notice::number(28, bytes),
            Refusal::TestedSets(fault) => sets_notice(29, fault),
            Refusal::NotState => Notice::bare(30),
            Refusal::NotLearning { set, first, second } => {
                Notice::new(
                    31,
                    &[Detail::Set(set), Detail::Item(first), Detail::Item(second)],
                )
            }
            Refusal::NoState => Notice::bare(32),
            Refusal::NotOrder => Notice::bare(33),
            Refusal::ManyStates => Notice::bare(34),
            Refusal::Heavy { replies } => Notice::number(35, u64::from(replies)),
            Refusal::ManyPupils => Notice::bare(36),
            Refusal::PupilStands => Notice::bare(37),
            Refusal::NoPupil => Notice::bare(38),
            Refusal::Reply(fault) => reply_notice(fault),
            Refusal::BadSetting => Notice::bare(43),
            Refusal::BadClass { row } => Notice::number(41, u64::from(row)),
            Refusal::BadSession { cause } => Notice::word(42, cause_word(cause)),
            Refusal::Skills(fault) => skill_notice(fault),
            Refusal::PartSets { side, fault } => part_notice(side, fault),
            Refusal::Mesh(fault) => mesh_notice(fault),
            Refusal::StartRelation(fault) => pair_notice(fault),
            Refusal::SafeStands => Notice::bare(50),
            Refusal::NoSafe => Notice::bare(51),
            Refusal::Safe(fault) => safe_notice(fault),
        }
    }
}
