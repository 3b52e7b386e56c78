// The law of what a mesh means.
ghost use Rattle.std.specs.Prelude.{◌≡◌, ℕ, List};
ghost use Rattle.ls_set.specs.ItemSet.{Items};
ghost use Rattle.ls_origins.specs.Meshes.{mesh_of};
ghost use Rattle.ls_mesh.specs.Meshed.{MeshState, meshed, IsMeshOf};

/// The members of a mesh of two parts are those of the definition: the sets whose traces are states
/// of both parts. Nothing is done.
pub fn meshes_are_meant()
    ensures { (n : ℕ) (left right : List Items) (m : MeshState) → IsMeshOf n left right m →
        meshed m ≡ mesh_of n left right }
{}
