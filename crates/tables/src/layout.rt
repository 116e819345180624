// The words of a record: after the header, of which words 0 to 2 are n, m and c, the regions of 01 in their order. The last one ends with the record.
ghost use Rattle.std.specs.Prelude.{◌≡◌, take, drop};
ghost use Rattle.model.specs.Record.{sets_start, permissions_start, members_start, juniors_start};
ghost use Rattle.tables.specs.Tables.{table128_length, table256_length};

pub const LENGTH: usize = 2056;

pub type Record = [u64; LENGTH];

// A table of sets of 128 items: two words to each of 128 users, roles or samples.
pub type Table128 = [u64; 256];

// A table of sets of 256 permissions: four words to each of 128 users or roles.
pub type Table256 = [u64; 512];

// The standing set, in the header.
pub const STANDING: usize = 4;

pub const CREW: usize = 8;

pub const SETS: usize = 520;

pub const PERMISSIONS: usize = 1032;

pub const MEMBERS: usize = 1544;

pub const JUNIORS: usize = 1800;

// The regions of a record as tables: what each candidate holds, and what stands directly at each role: its permissions, its members, its juniors.

pub fn candidate_sets(rec: &Record) -> &Table256
    ensures { result.now ≡ take table256_length (drop sets_start rec.now) }
{
    rec[SETS..PERMISSIONS].as_array().unwrap()
}

pub fn direct_permissions(rec: &Record) -> &Table256
    ensures { result.now ≡ take table256_length (drop permissions_start rec.now) }
{
    rec[PERMISSIONS..MEMBERS].as_array().unwrap()
}

pub fn direct_members(rec: &Record) -> &Table128
    ensures { result.now ≡ take table128_length (drop members_start rec.now) }
{
    rec[MEMBERS..JUNIORS].as_array().unwrap()
}

pub fn immediate_juniors(rec: &Record) -> &Table128
    ensures { result.now ≡ take table128_length (drop juniors_start rec.now) }
{
    rec[JUNIORS..].as_array().unwrap()
}
