ghost use Rattle.indexes.specs.Index.{Blank};

use tables::Table128;

// An index: what a call computes once beside the record, and then only reads. The holders of permissions are filled by those who ask for them.
#[derive(Drop)]
pub struct Index {
    // the lower candidates of each role
    pub lower: Table128,
    // the roles of each user
    pub roles: Table128,
    // the users of each role
    pub users: Table128,
    // the roles that hold each permission
    pub holders: Holders,
}

// A set of two words for each of 256 permissions.
pub type Holders = [u64; 512];

impl Index {
    // One that is still to be filled.
    pub fn empty() -> Index
        ensures { Blank result }
    {
        Index {
            lower: [0; 256],
            roles: [0; 256],
            users: [0; 256],
            holders: [0; 512],
        }
    }
}
