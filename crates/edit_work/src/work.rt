ghost use Rattle.edit_work.specs.Work.{Blank};

use sets::Set128;
use tables::Table128;

// An elimination's work: what its redundancies are computed from. It changes with the crew list only, so once is enough.
#[derive(Drop)]
pub struct Work {
    // the roles that lie within each role
    pub down: Table128,
    // the roles that each role lies within
    pub up: Table128,
    // the roles of each sample user
    pub samples: Table128,
    // the samples that hold each role
    pub holding: Table128,
    // for each sample those that have all its roles
    pub further: Table128,
    // the first holders of all permissions
    pub first: Set128,
}

impl Work {
    // One that is still to be filled.
    pub fn empty() -> Work
        ensures { Blank result }
    {
        Work {
            down: [0; 256],
            up: [0; 256],
            samples: [0; 256],
            holding: [0; 256],
            further: [0; 256],
            first: Set128::empty(),
        }
    }
}
