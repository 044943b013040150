// Where a reader puts what it keeps. Anyone may write a sheet: code over any sheet rests on these contracts alone.
#![tactic(auto)]

ghost use Rattle.std.specs.Prelude.{◌≡◌, ℕ, T, List, length};
ghost use Rattle.std.specs.List.{slice_get};
ghost use Rattle.record.specs.declared.row.PlacedRow.{PlacedRow};
ghost use Rattle.sheet.specs.Rows.{pairs};
ghost use Rattle.sheet.specs.Sheets.{model, put_answer, after_put, seal_answer, after_seal, after_drop};

use record::refusal::Refusal;
use record::row::PlacedRow;

pub mod copy;
pub mod rows;
pub mod tail;
pub mod through;

// A readable means a list of rows with places in which starts and ends pair. Its questions alter nothing.
pub trait Readable {
    ghost rows: { Self → List PlacedRow };

    ghost paired: { (x : Self) → T (pairs (rows x)) };

    fn count(&self) -> usize
        ensures { result ≡ length (rows self.now) };

    // The row at a number, or nothing past the last.
    fn row(&self, n: usize) -> Option<PlacedRow>
        ensures { result ≡ slice_get (rows self.now) n };
}

// A sheet is a readable that also takes rows. It shows its sealed rows; behind them it has a draft, which grows by
// put and goes whole, by seal behind the sealed rows or by drop. Its rows together cost no more than its capacity.
// Kept: the clauses spell out what `meaning` says elsewhere, for a definition that names a trait cannot stand in the trait.
pub trait Sheet: Readable {
    ghost draft: { Self → List PlacedRow };

    ghost capacity: { Self → ℕ };

    // by the number of the kind
    ghost cost: { ℕ → ℕ };

    // Adds a row behind the draft.
    fn put(&mut self, row: PlacedRow) -> Result<(), Refusal>
        ensures answer { result ≡ put_answer (model (Self.Readable.rows self.old) (draft self.old) (capacity self.old) cost) row }
        ensures meaning { model (Self.Readable.rows self.new) (draft self.new) (capacity self.new) cost ≡ after_put (model (Self.Readable.rows self.old) (draft self.old) (capacity self.old) cost) row };

    // Moves the draft behind the sealed rows, and answers how many rows it had.
    fn seal(&mut self) -> Result<usize, Refusal>
        ensures answer { result ≡ seal_answer (model (Self.Readable.rows self.old) (draft self.old) (capacity self.old) cost) }
        ensures meaning { model (Self.Readable.rows self.new) (draft self.new) (capacity self.new) cost ≡ after_seal (model (Self.Readable.rows self.old) (draft self.old) (capacity self.old) cost) };

    // Empties the draft.
    fn drop_draft(&mut self)
        ensures { model (Self.Readable.rows self.new) (draft self.new) (capacity self.new) cost ≡ after_drop (model (Self.Readable.rows self.old) (draft self.old) (capacity self.old) cost) };
}
