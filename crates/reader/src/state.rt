use card::extensions::Extensions;
use course::Course;
use file::texts::Texts;

mod turns;

// What an open record is read by: its texts, and an extension list.
#[derive(Clone, Copy)]
struct Source<'a> {
    texts: Texts<'a>,
    extensions: Extensions<'a>,
}

// No record is open, or one is, or one is that a refusal spoilt.
#[derive(Clone, Copy)]
enum Turn<'a> {
    Closed,
    Open(Source<'a>),
    Spoilt,
}

// Reads one record at a time, row by row, in fixed memory; it never holds the record.
#[derive(Drop)]
pub struct Reader<'a> {
    turn: Turn<'a>,
    course: Course,
}
