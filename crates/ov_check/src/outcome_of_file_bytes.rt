ghost use Rattle.std.specs.Prelude.{◌≡◌, ◌≢◌, List, ℕ, Ok, IfOk, MatchResult};
ghost use Rattle.ov_check.specs.declared.outcome_of_file_bytes.Outcome.TheVariants.{Refused};
ghost use Rattle.ov_check.specs.Outcome.{BytesSay, IsRefused, IsOutcome, AreAlike, SaysExactNumber, status_of};

use crate::check_or_memory_fault::ParallelFault;
use crate::parallel::check_group_parallel;
use ov_cert::{CheckFault, check_group};
use ov_certfile::{FileFault, Filed, NoJson, RefusedFile, Version, filed_or_refusal};
use ov_ids::OutOfMemory;
use std::alloc::Global;
use std::thread::Threads;

/// The outcome of a certificate file.
#[derive(Drop)]
pub enum Outcome {
    /// The file. Its certificate is valid for its group.
    Holds(Filed),
    /// The file, and the first fault of its certificate.
    Fails { filed: Filed, fault: CheckFault },
    /// Bytes that are not a certificate file.
    Refused(RefusedFile),
}

/// The outcome of the bytes of a file, where this is the newest version that is read. If the certificate holds, its
/// number is exact for its group. Bytes that are not text are refused as `NotJson` (60).
///
/// `OutOfMemory` (99): an allocation was refused.
#[tactic(auto, using(crate::proofs::Outcomes::one_outcome))]
pub fn outcome_of(alloc: Global, newest: Version, bytes: &[u8]) -> Result<Outcome, OutOfMemory>
    ensures outcome { IfOk result (λ o. IsOutcome newest bytes.now o) }
    ensures only { IfOk result (λ o. (u : Outcome) → IsOutcome newest bytes.now u → AreAlike u o) }
    ensures exact { IfOk result (λ o. status_of o ≡ 0 → SaysExactNumber newest bytes.now) }
{
    match filed_in(alloc, newest, bytes) {
        Ok(filed) => Ok(judge_file(filed)),
        Err(refusal) => of_refusal(refusal),
    }
}

/// Does what `outcome_of` does, by many threads.
pub(crate) fn outcome_parallel(
    rt: &(impl AllocGlobal + Threads + Sync),
    newest: Version,
    bytes: &[u8],
) -> Result<Outcome, OutOfMemory>
    ensures outcome { IfOk result (λ o. IsOutcome newest bytes.now o) }
    ensures only { IfOk result (λ o. (u : Outcome) → IsOutcome newest bytes.now u → AreAlike u o) }
    ensures exact { IfOk result (λ o. status_of o ≡ 0 → SaysExactNumber newest bytes.now) }
{
    match filed_in(rt.alloc(), newest, bytes) {
        Ok(filed) => judge_file_parallel(rt, filed),
        Err(refusal) => of_refusal(refusal),
    }
}

/// The certificate file in these bytes, where this is the newest version that is read. Whether its certificate holds is
/// not asked. A refusal has the first fault: those of `from_text` of `ov_certfile`, and NotJson (60) for bytes that are
/// no UTF-8.
pub fn filed_in(alloc: Global, newest: Version, bytes: &[u8]) -> Result<Filed, RefusedFile>
    ensures { MatchResult result (λ filed. BytesSay newest bytes.now (Ok filed))
        (λ refusal. refusal.fault ≢ FileFault.OutOfMemory → IsRefused newest bytes.now refusal) }
{
    match str::from_utf8(bytes) {
        Ok(text) => filed_or_refusal(alloc, newest, text),
        Err(error) => {
            let no_json = NoJson::no_text(error.valid_up_to());
            let fault = FileFault::NotJson(no_json);
            Err(RefusedFile { fault, value: None })
        }
    }
}

/// The outcome of bytes that are refused so. OutOfMemory (99): that is the fault, and nothing is said of the bytes.
fn of_refusal(refusal: RefusedFile) -> Result<Outcome, OutOfMemory>
    ensures { IfOk result (λ o. (o ≡ Refused refusal) × (refusal.fault ≢ FileFault.OutOfMemory)) }
{
    match refusal.fault {
        FileFault::OutOfMemory => Err(OutOfMemory),
        _ => Ok(Outcome::Refused(refusal)),
    }
}

/// The outcome of a certificate file.
fn judge_file(filed: Filed) -> Outcome
    ensures outcome { (newest : Version) → (bytes : List ℕ) → BytesSay newest bytes (Ok filed)
        → IsOutcome newest bytes result }
    ensures exact { (newest : Version) → (bytes : List ℕ) → BytesSay newest bytes (Ok filed) → status_of result ≡ 0
        → SaysExactNumber newest bytes }
{
    match check_group(&filed.graph, filed.group.as_slice(), &filed.cert) {
        Ok(()) => Outcome::Holds(filed),
        Err(fault) => Outcome::Fails { filed, fault },
    }
}

/// Does what `judge_file` does, by many threads.
fn judge_file_parallel(
    rt: &(impl AllocGlobal + Threads + Sync),
    filed: Filed,
) -> Result<Outcome, OutOfMemory>
    ensures outcome { (newest : Version) → (bytes : List ℕ) → BytesSay newest bytes (Ok filed)
        → IfOk result (λ o. IsOutcome newest bytes o) }
    ensures exact { (newest : Version) → (bytes : List ℕ) → BytesSay newest bytes (Ok filed)
        → IfOk result (λ o. status_of o ≡ 0 → SaysExactNumber newest bytes) }
{
    match check_group_parallel(rt, &filed.graph, filed.group.as_slice(), &filed.cert) {
        Ok(()) => Ok(Outcome::Holds(filed)),
        Err(ParallelFault::Check(fault)) => Ok(Outcome::Fails { filed, fault }),
        Err(ParallelFault::OutOfMemory) => Err(OutOfMemory),
    }
}

impl Outcome {
    /// The program's status: 0 if the certificate holds, otherwise 1.
    pub fn status(&self) -> u8
        ensures { result ≡ status_of self.now }
    {
        match self {
            Outcome::Holds(_) => 0,
            Outcome::Fails { .. } | Outcome::Refused(_) => 1,
        }
    }
}
