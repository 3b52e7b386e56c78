//! The mesh of two parts: the sets that look to each part like one of its states, known by their
//! interiors and not listed.
#![tactic(auto)]

mod both;
mod keeping;
mod laws;
mod mesh;
mod meshes;
mod parts;
mod side;
mod unions;

pub use both::Both;
pub use laws::meshes_are_meant;
pub use ls_origins::MeshFault;
pub use mesh::Mesh;
pub use meshes::{
    agreement_is_on_shared_items, members_of_both_are_a_family, meshes_are_spaces,
    meshes_are_spanned_in_common, sides_are_told_by_sets, sides_keep_members,
    turns_reach_the_interior,
};
pub use parts::{agreement_is_told_by_bases, meshes_are_told_by_bases};
pub use unions::Unions;
