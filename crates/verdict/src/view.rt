use file::texts::Texts;
use scope::entries::{Bound, Mark, Pair};
use understood::Understood;

// What an element is judged by: the texts of its record, what is known of them, and what is in scope at it.
#[derive(Clone, Copy)]
pub struct View<'a> {
    pub lent: Texts<'a>,
    pub known: &'a Understood,
    pub bindings: &'a [Bound],
    pub marks: &'a [Mark],
    pub pairs: &'a [Pair],
}
