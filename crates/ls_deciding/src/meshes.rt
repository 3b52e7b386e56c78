// Meshes of the parts of two files.
ghost use Rattle.std.specs.Prelude.{◌≡◌, [], IfOk, length};
ghost use Rattle.ls_files.specs.SetFiles.{sets_of};
ghost use Rattle.ls_meaning.specs.MeshRows.{agreed_by, meshed_by};
ghost use Rattle.ls_deciding.specs.Parts.{IsMeshRead, IsPartRead};
ghost use Rattle.ls_deciding.specs.TwoFiles.{right_bytes};

use ls_domain::Domain;
use ls_family::{Family, FamilyFault, files_have_sets_of_items};
use ls_meaning::{MeshStates, Refusal, Response, Shown};
use ls_mesh::{Mesh, MeshFault};
use ls_set::{ItemSet, SetList};
use std::alloc::{AllocError, Global};

/// The bytes of two files. Where both have one name, `right` is left out.
#[derive(Drop)]
pub struct TwoFiles {
    pub left: Vec<u8>,
    pub right: Option<Vec<u8>>,
}

impl TwoFiles {
    /// The bytes of the second file.
    pub fn right(&self) -> &[u8]
        ensures { result.now ≡ right_bytes self.now }
    {
        match &self.right {
            Some(bytes) => bytes,
            None => &self.left,
        }
    }
}

/// A page of the mesh of the parts of two files, or the refusal of files that give none. The error
/// is want of memory.
pub fn page_of_mesh(
    alloc: Global,
    domain: &Domain,
    files: &TwoFiles,
    count: u32,
    after: Option<ItemSet>,
) -> Result<Response, AllocError>
    ensures { IfOk result (λ r. r ≡ meshed_by (length domain.now) count after []
        (sets_of domain.now files.now.left.items) (sets_of domain.now (right_bytes files.now))) }
{
    match read_mesh(alloc, domain, files)? {
        Ok(mesh) => {
            let left = SetList::from_slice(alloc, mesh.left())?;
            let right = SetList::from_slice(alloc, mesh.right())?;
            let items = domain.count();
            Ok(Response::Shown(Shown::Mesh {
                states: MeshStates { items, left, right },
                count,
                after,
            }))
        }
        Err(refusal) => Ok(Response::Refused(refusal)),
    }
}

/// Whether the parts of two files agree, or the refusal of files that give none. The error is want
/// of memory.
pub fn agreement(alloc: Global, domain: &Domain, files: &TwoFiles) -> Result<Response, AllocError>
    ensures { IfOk result (λ r. r ≡ agreed_by (length domain.now) []
        (sets_of domain.now files.now.left.items) (sets_of domain.now (right_bytes files.now))) }
{
    match read_mesh(alloc, domain, files)? {
        Ok(mesh) => Ok(Response::Shown(Shown::Agree(mesh.agree(alloc)?))),
        Err(refusal) => Ok(Response::Refused(refusal)),
    }
}

// The mesh of the parts of two files, or the refusal of files that give none.
fn read_mesh(
    alloc: Global,
    domain: &Domain,
    files: &TwoFiles,
) -> Result<Result<Mesh, Refusal>, AllocError>
    ensures { IfOk result (IsMeshRead (length domain.now)
        (sets_of domain.now files.now.left.items) (sets_of domain.now (right_bytes files.now))) }
{
    files_have_sets_of_items();
    let left = match read_part(alloc, domain, 1, &files.left)? {
        Ok(family) => family,
        Err(refusal) => return Ok(Err(refusal)),
    };
    let right = match read_part(alloc, domain, 2, files.right())? {
        Ok(family) => family,
        Err(refusal) => return Ok(Err(refusal)),
    };
    match Mesh::from_sets(alloc, domain.count(), left.members(), right.members()) {
        Ok(mesh) => Ok(Ok(mesh)),
        Err(MeshFault::Memory(e)) => Err(e),
        Err(fault) => Ok(Err(Refusal::Mesh(fault))),
    }
}

// The sets of the file of a side, which is 1 or 2, or the refusal of a file that is no list of
// sets.
fn read_part(
    alloc: Global,
    domain: &Domain,
    side: u32,
    bytes: &[u8],
) -> Result<Result<Family, Refusal>, AllocError>
    ensures { IfOk result (IsPartRead side (sets_of domain.now bytes.now)) }
{
    match Family::from_text(alloc, domain, bytes) {
        Ok(family) => Ok(Ok(family)),
        Err(FamilyFault::Memory(e)) => Err(e),
        Err(fault) => Ok(Err(Refusal::PartSets { side, fault })),
    }
}
