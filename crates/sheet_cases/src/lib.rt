// Both sheets on the same cases, through code that knows neither.
#![tactic(auto)]

ghost use Rattle.std.specs.Prelude.{◌≡◌, T, length};
ghost use Rattle.std.specs.List.{slice_get};
ghost use Rattle.sheet.specs.Rows.{pairs};

use record::row::PlacedRow;
use sheet::Readable;
use sheet::through::Through;

#[cfg(test)]
mod cases;
#[cfg(test)]
mod tests;

// The count of any readable, seen through two layers; and its starts and ends pair, whatever readable it is.
pub fn count_through<R: Readable>(base: &R) -> usize
    ensures count { result ≡ length (R.Readable.rows base.now) }
    ensures pairs { T (pairs (R.Readable.rows base.now)) }
{
    let lower = Through::new(base);
    let upper = Through::new(&lower);
    upper.count()
}

// A row of any readable, seen through two layers.
pub fn row_through<R: Readable>(base: &R, n: usize) -> Option<PlacedRow>
    ensures { result ≡ slice_get (R.Readable.rows base.now) n }
{
    let lower = Through::new(base);
    let upper = Through::new(&lower);
    upper.row(n)
}
