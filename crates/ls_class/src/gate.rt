// What a replay passes before it begins.

/// What the replay of a pupil passes before it begins. No result depends on it.
pub trait Gate {
    /// Lets the pupil through that stands at the place in the table, counted from 0.
    fn enter(&self, place: u32);
}

/// A gate that lets each pupil through at once.
#[derive(Clone, Copy)]
pub struct OpenGate;

impl Gate for OpenGate {
    fn enter(&self, _place: u32) {}
}
