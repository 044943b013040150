ghost use Rattle.std.specs.Prelude.{◌≡◌, ◌<◌};
ghost use Rattle.std.specs.List.{slice_get};
ghost use Rattle.outline.specs.Found.{number_at, around_at, climbed, end_at, found_at, StandsBy};
ghost use Rattle.outline.specs.Outlines.{outline_sealed, sealed_entries};

use super::Outline;
use crate::entry::{Entry, Span, end_row, innermost};
use record::row::PlacedRow;

impl<'a> Outline<'a> {
    fn sealed_entries(&self) -> &[Entry]
        ensures { result.now ≡ sealed_entries self.now }
    {
        &self.roll.as_slice()[..self.sealed]
    }

    fn sealed_entry(&self, i: usize) -> Option<Entry>
        ensures { result ≡ slice_get (sealed_entries self.now) i }
    {
        self.sealed_entries().get(i).copied()
    }

    // The number of an entry's row; past the last entry, the number of all rows.
    fn number_at(&self, i: usize) -> usize
        ensures { result ≡ number_at (sealed_entries self.now) self.now.count i }
    {
        self.sealed_entry(i)
            .map_or(self.count, |entry| entry.number)
    }

    // The last entry whose row is not behind row `n`.
    fn entry_by(&self, n: usize) -> usize
        requires { n < self.now.count }
        ensures { StandsBy (sealed_entries self.now) self.now.count result n }
    {
        self.sealed_entries()
            .partition_point(|entry| entry.number <= n)
            - 1
    }

    fn around(&self, start: Option<usize>) -> Option<usize>
        ensures { result ≡ around_at (sealed_entries self.now) start }
    {
        self.sealed_entry(start?)?.around
    }

    fn climb(&self, start: Option<usize>, steps: usize) -> Option<usize>
        ensures { result ≡ climbed (sealed_entries self.now) steps start }
    {
        (0..steps).fold(start, |here, _| self.around(here))
    }

    fn end_at(&self, start: Option<usize>) -> Option<PlacedRow>
        ensures { result ≡ end_at (sealed_entries self.now) start }
    {
        match self.sealed_entry(start?)?.span {
            Span::Closed { end, .. } => Some(end_row(end)),
            Span::Leaf | Span::Open => None,
        }
    }

    // The row `k` rows behind that of entry `i`: behind the entry's own come ends, of the innermost start first.
    fn found_at(&self, i: usize, k: usize) -> Option<PlacedRow>
        ensures { result ≡ found_at (sealed_entries self.now) i k }
    {
        let entry = self.sealed_entry(i)?;
        if k == 0 {
            return Some(entry.row);
        }
        self.end_at(self.climb(innermost(i, entry), k - 1))
    }

    // The row at a number that the outline has.
    pub(crate) fn row_at(&self, n: usize) -> Option<PlacedRow>
        requires { n < self.now.count }
        ensures { result ≡ slice_get (outline_sealed self.now) n }
    {
        let i = self.entry_by(n);
        self.found_at(i, n - self.number_at(i))
    }
}
