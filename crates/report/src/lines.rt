// The lines that the program prints, each with its line feed.
ghost use Rattle.std.specs.Prelude.{◌≡◌, IfOk, string_bytes};
ghost use Rattle.report.specs.Lines.{register_line, draft_line, candidate_line, end_line, fault_line};

use crate::source::Source;
use records::{Candidate, Fault};
use std::alloc::{AllocError, Global};

// How many subjects and properties a register has.
pub fn register_line(
    heap: Global,
    source: Source,
    subjects: usize,
    properties: usize,
) -> Result<String, AllocError>
    ensures { IfOk result (λ s. string_bytes s ≡ register_line source subjects properties) }
{
    let name = source.name();
    format!(in heap; "read {subjects} subjects and {properties} properties of {name}\n")
}

// How many conditions of each kind the draft has.
pub fn draft_line(heap: Global, equal: usize, share: usize) -> Result<String, AllocError>
    ensures { IfOk result (λ s. string_bytes s ≡ draft_line equal share) }
{
    format!(in heap; "read {equal} equal and {share} share conditions of draft\n")
}

// A candidate: its code, how many links it has, and how many left and right subjects are linked.
pub fn candidate_line(heap: Global, candidate: &Candidate) -> Result<String, AllocError>
    ensures { IfOk result (λ s. string_bytes s ≡ candidate_line candidate.now) }
{
    let code = candidate.code;
    let links = candidate.links;
    let left = candidate.left_linked;
    let right = candidate.right_linked;
    format!(in heap; "{code} {links} {left} {right}\n")
}

// The end, and how many candidates there are.
pub fn end_line(heap: Global, total: u64) -> Result<String, AllocError>
    ensures { IfOk result (λ s. string_bytes s ≡ end_line total) }
{
    format!(in heap; "end {total}\n")
}

// Which file was refused, by which number and at which place.
pub fn fault_line<F: Fault>(heap: Global, source: Source, fault: &F) -> Result<String, AllocError>
    ensures { IfOk result (λ s. string_bytes s ≡ fault_line source (F.Fault.refusal fault.now)) }
{
    let name = source.name();
    let number = fault.number();
    let place = fault.place();
    format!(in heap; "fault {name} {number} {place}\n")
}
