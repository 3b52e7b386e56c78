// Places in a list.
ghost use Rattle.std.specs.Prelude.{◌≡◌, ◌<◌, ◌++◌, ◌∷◌, [], ◌==◌, OnOk, map, filter, not};
ghost use Rattle.ls_rules.specs.Places.{lower, lowered};

use std::alloc::{AllocError, Global};
use std::marker::Model;

/// Places in ascending order, with room for more.
#[derive(Drop)]
pub struct Places {
    list: Vec<usize>,
}

impl Model for Places {
    ghost use Rattle.std.specs.Prelude.{◌-◌, vec_len, vec_capacity};
    ghost use Rattle.ls_rules.specs.Places.{PlaceList};

    ghost Value = { PlaceList };

    ghost view = { λ a. record {
      places = a.list.items;
      spare = vec_capacity a.list - vec_len a.list;
    } };
}

// Takes out one place.
fn take_out(list: &mut Vec<usize>, place: usize)
    ensures { list.new.items ≡ filter (λ p. not (p == place)) list.old.items }
{
    list.retain(|p| *p != place);
}

// Lowers the places above one by one.
fn lower_each(list: &mut [usize], place: usize)
    ensures { list.new ≡ map (lower place) list.old }
{
    for p in list.iter_mut() {
        if *p > place {
            *p -= 1;
        }
    }
}

impl Places {
    /// No place. It takes no memory.
    pub fn new(alloc: Global) -> Places
        ensures { result.places ≡ [] }
    {
        Places {
            list: Vec::new(alloc),
        }
    }

    /// Makes room for one place.
    pub fn reserve(&mut self) -> Result<(), AllocError>
        ensures ok { OnOk result (0 < self.new.spare) }
        ensures places { self.new.places ≡ self.old.places }
    {
        self.list.reserve(1)
    }

    /// Puts a place last, in the room that was made.
    pub fn push(&mut self, place: usize)
        requires { 0 < self.old.spare }
        ensures { self.new.places ≡ self.old.places ++ place ∷ [] }
    {
        self.list.push(place).unwrap()
    }

    /// Takes out one place, and lowers those above it by one.
    pub fn remove(&mut self, place: usize)
        ensures { self.new.places ≡ lowered place self.old.places }
    {
        take_out(&mut self.list, place);
        lower_each(&mut self.list, place);
    }

    /// The places.
    pub fn as_slice(&self) -> &[usize]
        ensures { result.now ≡ self.now.places }
    {
        &self.list
    }
}
