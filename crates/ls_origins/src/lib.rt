//! What a learning space can come from beside a base and answers: the definitions of skill maps, of
//! meshes, of relations between items and of the safe interview, over explicit lists of sets, in
//! specs/; and the data types of which they speak.
#![tactic(auto)]

mod cover;
mod covers;
mod mesh_fault;
mod pair_fault;
mod relation_fault;
mod safe_answer;
mod safe_answers;
mod safe_fault;
mod skill_fault;

pub use cover::Cover;
pub use covers::Covers;
pub use mesh_fault::MeshFault;
pub use pair_fault::PairFault;
pub use relation_fault::RelationFault;
pub use safe_answer::SafeAnswer;
pub use safe_answers::SafeAnswers;
pub use safe_fault::SafeFault;
pub use skill_fault::SkillFault;
