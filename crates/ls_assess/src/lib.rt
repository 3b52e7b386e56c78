//! The assessment of one pupil.
#![tactic(auto)]

mod pupil;

pub use ls_theory::{Asked, Outcome, Reason, Reply, ReplyFault};
pub use ls_weight::{BadSetting, Ratio, Ratios, Settings, WeightFault};
pub use pupil::Pupil;
