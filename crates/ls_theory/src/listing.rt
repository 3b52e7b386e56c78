// Pages of a listing.
use ls_set::SetList;

/// A page: the sets, and whether a further one follows.
#[derive(Drop)]
pub struct Listing {
    pub sets: SetList,
    pub more: bool,
}
