// What a call gives back, as the numbers that are printed: that of its refusal, or 0, and then what it gives, or 0.
use refusals::Refusal;

pub fn told(outcome: Result<u64, Refusal>) -> [u64; 2] {
    match outcome {
        Ok(value) => [0, value],
        Err(refusal) => [refusal.number(), 0],
    }
}

pub fn number_alone(outcome: Result<(), Refusal>) -> [u64; 1] {
    match outcome {
        Ok(()) => [0],
        Err(refusal) => [refusal.number()],
    }
}

pub fn pair_told(outcome: Result<(u64, u64), Refusal>) -> [u64; 3] {
    match outcome {
        Ok((a, b)) => [0, a, b],
        Err(refusal) => [refusal.number(), 0, 0],
    }
}
