// Refusals that are due. Each has its number beside it, by hand, so that what the library tells of it is compared too.
use records::Fault;

#[derive(Clone, Copy)]
pub struct Refusal<F> {
    fault: F,
    number: u32,
}

impl<F: Fault + PartialEq + Copy> Refusal<F> {
    pub fn new(fault: F, number: u32) -> Refusal<F> {
        Refusal { fault, number }
    }

    // Whether the answer is this refusal, and tells its number and place 0.
    pub fn is_told_by<T>(&self, answer: &Result<T, F>) -> bool {
        answer.as_ref().is_err_and(|told| {
            *told == self.fault && told.number() == self.number && told.place() == 0
        })
    }
}
