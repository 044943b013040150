use crate::{count_through, row_through};
use record::row::{PlacedRow, Row};
use sheet::rows::Rows;
use sheet::{Readable, Sheet};

// What is done to a sheet: a put with its place, kind and three numbers; a seal; a drop.
#[derive(Clone, Copy)]
pub(crate) enum Step {
    Put(u32, u32, u32, u32, u32),
    Seal,
    Drop,
}

// What it answers: how many rows were sealed, if it is a seal; or a refusal's number and place.
pub(crate) type Answer = Result<Option<usize>, (u32, u32)>;

fn row(place: u32, kind: u32, a: u32, b: u32, c: u32) -> PlacedRow {
    PlacedRow {
        place,
        row: Row { kind, a, b, c },
    }
}

fn done<S: Sheet>(sheet: &mut S, step: Step) -> Answer {
    let answer = match step {
        Step::Put(place, kind, a, b, c) => sheet.put(row(place, kind, a, b, c)).map(|()| None),
        Step::Seal => sheet.seal().map(Some),
        Step::Drop => {
            sheet.drop_draft();
            Ok(None)
        }
    };
    answer.map_err(|refusal| (refusal.number(), refusal.place()))
}

// The number of the first step that is not answered as expected.
pub(crate) fn first_surprise<S: Sheet>(sheet: &mut S, steps: &[(Step, Answer)]) -> Option<usize> {
    steps
        .iter()
        .position(|&(step, expected)| done(sheet, step) != expected)
}

// The number of the first row that is not as expected, from the count and from every row and some past the end.
pub(crate) fn first_difference<R: Readable>(
    readable: &R,
    rows: &[(u32, u32, u32, u32, u32)],
) -> Option<usize> {
    if readable.count() != rows.len() {
        return Some(readable.count());
    }
    let different = rows
        .iter()
        .map(|&(place, kind, a, b, c)| row(place, kind, a, b, c))
        .enumerate()
        .position(|(n, row)| readable.row(n) != Some(row));
    let more = readable.row(rows.len()).is_some() || readable.row(usize::MAX).is_some();
    different.or(more.then_some(rows.len()))
}

// The same of what is seen through two layers.
pub(crate) fn is_same_through<R: Readable>(readable: &R) -> bool {
    count_through(readable) == readable.count()
        && Rows::of(readable)
            .enumerate()
            .all(|(n, row)| row_through(readable, n) == Some(row))
        && row_through(readable, readable.count()).is_none()
}

// Puts as many starts as there are levels, then their ends, and seals.
pub(crate) fn nest<S: Sheet>(sheet: &mut S, levels: u32) -> Answer {
    for place in 0..levels {
        done(sheet, Step::Put(place, 1, 1, 2, 0))?;
    }
    for level in 0..levels {
        done(sheet, Step::Put(levels.saturating_add(level), 5, 0, 0, 0))?;
    }
    done(sheet, Step::Seal)
}

// Whether a sheet shows such a nest, and no more.
pub(crate) fn is_nest<R: Readable>(readable: &R, levels: u32) -> bool {
    let has_pair = |place: u32| {
        let end = levels.saturating_add(place);
        readable.row(place as usize) == Some(row(place, 1, 1, 2, 0))
            && readable.row(end as usize) == Some(row(end, 5, 0, 0, 0))
    };
    (0..levels).all(has_pair)
        && readable.count() == 2 * levels as usize
        && readable.row(2 * levels as usize).is_none()
}
