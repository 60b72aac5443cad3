/// What a worker passes with each number that it claimed.
pub trait Gate: Sync {
    /// Worker `worker` has claimed `number`, and looks next. The worker goes on once this returns. Numbers begin at 0
    /// on each level. A gate that waits for another worker may wait for ever: if no thread can be started, the workers
    /// run one after another.
    fn pass(&self, worker: u32, number: u64);
}

/// A gate that lets every worker pass.
#[derive(Drop)]
pub struct OpenGate;

impl Gate for OpenGate {
    fn pass(&self, _worker: u32, _number: u64) {}
}
