use crate::Delivery;

/// What gets a report of each delivery as it happens. It answers nothing and so changes no answer; a test
/// uses it to watch the workers.
pub trait Gate: Sync {
    /// Worker `worker`, numbered from 0, has made this delivery: its node's log has it already, and
    /// the worker has not yet taken another message.
    fn pass(&self, worker: u32, delivery: &Delivery);
}

/// The gate of the program: it returns at once.
#[derive(Clone, Copy, Debug)]
pub struct OpenGate;

impl Gate for OpenGate {
    fn pass(&self, _worker: u32, _delivery: &Delivery) {}
}
