// A record on its way: its header and crew rows, then its index and its rows.
ghost use Rattle.std.specs.Prelude.{◌≡◌, [], ◌∷◌, ◌≤◌, length};
ghost use Rattle.sets.specs.Held.{set_of};
ghost use Rattle.sets.specs.Words.{word};
ghost use Rattle.model.specs.Candidates.{candidates};
ghost use Rattle.model.specs.Record.{Limits};
ghost use Rattle.model.specs.State.{State, roles_of};
ghost use Rattle.stores.specs.Stores.{put_at};
ghost use Rattle.tables.specs.Rows.{rows_of};
ghost use Rattle.indexes.specs.Index.{Indexed};
ghost use Rattle.indexes.specs.Tables.{FillsFrom, SourceOf};
ghost use Rattle.rows.specs.Linked.{Ready};
ghost use Rattle.rows.specs.Partway.{WithoutRows};
ghost use Rattle.records.specs.Records.{OnlyCandidates, Described};

use indexes::{Index, fill_index};
use rows::build_rows;
use sets::Set128;
use tables::{CREW, Record, Table128, as_rows, copy};

fn write_header(rec: &mut Record, n: u64, m: u64, c: u64, standing: Set128)
    ensures { rec.new ≡ put_at rec.old 0 (n ∷ m ∷ c ∷ 0 ∷ word (set_of standing) 0 ∷ word (set_of standing) 1 ∷ 0 ∷ 0 ∷ []) }
{
    copy(
        rec,
        0,
        &[n, m, c, 0, standing.word(0), standing.word(1), 0, 0],
    );
}

// The header and the crew rows, for a record that has nothing but its candidates.
pub fn begin_record(rec: &mut Record, rows: &[[u64; 4]], m: u64, c: usize, standing: Set128)
    requires rows_len { length rows.now ≤ 128 }
    ensures { (st : State) → Described st (rows_of rows.now) (length rows.now) m c (set_of standing) → OnlyCandidates rec.old (candidates st.rows) → WithoutRows st rec.new }
{
    write_header(rec, rows.len() as u64, m, c as u64, standing);
    let words = rows.as_flattened();
    copy(rec, CREW, words);
}

// The index of a record by its own crew rows.
pub fn index_record(rec: &Record, index: &mut Index)
    requires fills_from { FillsFrom rec.now }
    ensures { (st : State) → SourceOf st rec.now → Indexed (roles_of st) index.new }
{
    let n = rec[0] as usize;
    let rows = as_rows(rec, CREW, n);
    fill_index(rec, rows, index);
}

// The index, the rows and the immediate seniors, for a record that has all but these.
pub fn complete_record(rec: &mut Record, index: &mut Index, seniors: &mut Table128)
    requires fills_from { FillsFrom rec.old }
    ensures { (st : State) → Limits st → WithoutRows st rec.old → Ready st rec.new index.new seniors.new }
{
    index_record(rec, index);
    build_rows(rec, index, seniors);
}
