// What a call answers to C: the number of its refusal, or 0 and beside it what the call gives.
ghost use Rattle.std.specs.Prelude.{◌≡◌};
ghost use Rattle.panel_c.specs.Answers.{mine_answer, strike_answer, restore_answer, eliminate_answer, review_answer, quality_answer, may_answer, crew_read, crew_written};

use panel::{CrewSize, Done, Refusal};

// The refusal's number, or 0, and beside 0 the number of candidates.
#[repr(C)]
#[derive(Clone, Copy)]
pub struct MineAnswer {
    pub code: u64,
    pub candidates: u64,
}

impl From<Result<u64, Refusal>> for MineAnswer {
    ghost from_gives = { λ outcome answer. answer ≡ mine_answer outcome };

    fn from(outcome: Result<u64, Refusal>) -> MineAnswer {
        match outcome {
            Ok(candidates) => MineAnswer {
                code: 0,
                candidates,
            },
            Err(refusal) => MineAnswer {
                code: refusal.number(),
                candidates: 0,
            },
        }
    }
}

// The refusal's number, or 0, and beside 0 how many roles were struck, and how many were examined.
#[repr(C)]
#[derive(Clone, Copy)]
pub struct EliminateAnswer {
    pub code: u64,
    pub removed: u64,
    pub examined: u64,
}

impl From<Result<Done, Refusal>> for EliminateAnswer {
    ghost from_gives = { λ outcome answer. answer ≡ eliminate_answer outcome };

    fn from(outcome: Result<Done, Refusal>) -> EliminateAnswer {
        match outcome {
            Ok(done) => EliminateAnswer {
                code: 0,
                removed: done.changed,
                examined: done.examined,
            },
            Err(refusal) => EliminateAnswer {
                code: refusal.number(),
                removed: 0,
                examined: 0,
            },
        }
    }
}

// The refusal's number, or 0, and beside 0 how many roles were restored, and how many were examined.
#[repr(C)]
#[derive(Clone, Copy)]
pub struct ReviewAnswer {
    pub code: u64,
    pub restored: u64,
    pub examined: u64,
}

impl From<Result<Done, Refusal>> for ReviewAnswer {
    ghost from_gives = { λ outcome answer. answer ≡ review_answer outcome };

    fn from(outcome: Result<Done, Refusal>) -> ReviewAnswer {
        match outcome {
            Ok(done) => ReviewAnswer {
                code: 0,
                restored: done.changed,
                examined: done.examined,
            },
            Err(refusal) => ReviewAnswer {
                code: refusal.number(),
                restored: 0,
                examined: 0,
            },
        }
    }
}

// The refusal's number, or 0, and beside 0 the quality.
#[repr(C)]
#[derive(Clone, Copy)]
pub struct QualityAnswer {
    pub code: u64,
    pub quality: u64,
}

impl From<Result<u64, Refusal>> for QualityAnswer {
    ghost from_gives = { λ outcome answer. answer ≡ quality_answer outcome };

    fn from(outcome: Result<u64, Refusal>) -> QualityAnswer {
        match outcome {
            Ok(quality) => QualityAnswer { code: 0, quality },
            Err(refusal) => QualityAnswer {
                code: refusal.number(),
                quality: 0,
            },
        }
    }
}

// The refusal's number, or 0, and beside 0 whether the user may: 1 or 0.
#[repr(C)]
#[derive(Clone, Copy)]
pub struct MayAnswer {
    pub code: u64,
    pub allowed: u64,
}

impl From<Result<bool, Refusal>> for MayAnswer {
    ghost from_gives = { λ outcome answer. answer ≡ may_answer outcome };

    fn from(outcome: Result<bool, Refusal>) -> MayAnswer {
        match outcome {
            Ok(allowed) => MayAnswer {
                code: 0,
                allowed: u64::from(allowed),
            },
            Err(refusal) => MayAnswer {
                code: refusal.number(),
                allowed: 0,
            },
        }
    }
}

// The refusal's number, or 0, and beside 0 how many users and permissions the crew list has.
#[repr(C)]
#[derive(Clone, Copy)]
pub struct CrewRead {
    pub code: u64,
    pub n: u64,
    pub m: u64,
}

impl From<Result<CrewSize, Refusal>> for CrewRead {
    ghost from_gives = { λ outcome answer. answer ≡ crew_read outcome };

    fn from(outcome: Result<CrewSize, Refusal>) -> CrewRead {
        match outcome {
            Ok(size) => CrewRead {
                code: 0,
                n: size.n,
                m: size.m,
            },
            Err(refusal) => CrewRead {
                code: refusal.number(),
                n: 0,
                m: 0,
            },
        }
    }
}

// The refusal's number, or 0, and beside 0 how many bytes were written.
#[repr(C)]
#[derive(Clone, Copy)]
pub struct CrewWritten {
    pub code: u64,
    pub length: u64,
}

impl From<Result<usize, Refusal>> for CrewWritten {
    ghost from_gives = { λ outcome answer. answer ≡ crew_written outcome };

    fn from(outcome: Result<usize, Refusal>) -> CrewWritten {
        match outcome {
            Ok(length) => CrewWritten {
                code: 0,
                length: length as u64,
            },
            Err(refusal) => CrewWritten {
                code: refusal.number(),
                length: 0,
            },
        }
    }
}

// The refusal's number, or 0.
#[repr(C)]
#[derive(Clone, Copy)]
pub struct StrikeAnswer {
    pub code: u64,
}

impl From<Result<(), Refusal>> for StrikeAnswer {
    ghost from_gives = { λ outcome answer. answer ≡ strike_answer outcome };

    fn from(outcome: Result<(), Refusal>) -> StrikeAnswer {
        match outcome {
            Ok(()) => StrikeAnswer { code: 0 },
            Err(refusal) => StrikeAnswer {
                code: refusal.number(),
            },
        }
    }
}

// The refusal's number, or 0.
#[repr(C)]
#[derive(Clone, Copy)]
pub struct RestoreAnswer {
    pub code: u64,
}

impl From<Result<(), Refusal>> for RestoreAnswer {
    ghost from_gives = { λ outcome answer. answer ≡ restore_answer outcome };

    fn from(outcome: Result<(), Refusal>) -> RestoreAnswer {
        match outcome {
            Ok(()) => RestoreAnswer { code: 0 },
            Err(refusal) => RestoreAnswer {
                code: refusal.number(),
            },
        }
    }
}
