use faults::Fault;

// A refusal by its numbers: why, by whom, and at which block.
pub type Numbers = (u8, u8, u32);

// What a call answers, or the numbers of its refusal. In each crate of tests: a crate for this line alone is no plainer.
pub fn told<T>(answer: Result<T, Fault>) -> Result<T, Numbers> {
    answer.map_err(|fault| (fault.number(), fault.layer_number(), fault.block))
}
