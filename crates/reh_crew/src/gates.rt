// Gates of workers.

/// What each worker passes once, before its first piece of work, also where it has none.
///
/// A gate may hold a worker until others have come to it: so a test can see that workers overlap.
pub trait Gate {
    /// Lets the worker of that number pass; they count from 0.
    fn pass(&self, worker: usize);
}

/// A gate that holds nobody.
#[derive(Clone, Copy)]
pub struct OpenGate;

impl Gate for OpenGate {
    fn pass(&self, _worker: usize) {}
}
