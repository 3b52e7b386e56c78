//! Weights of knowledge states after a pupil's replies.
#![tactic(auto)]

mod amount;
mod bad_setting;
mod columns;
mod fault;
mod heaviest;
mod laws;
mod masses;
mod passes;
mod rows;
mod settings;
mod tables;
mod weights;

pub use bad_setting::BadSetting;
pub use fault::WeightFault;
pub use laws::light_totals_fit;
pub use ls_theory::{Ratio, Ratios, Reply};
pub use settings::Settings;
pub use weights::Weights;
