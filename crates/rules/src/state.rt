// What an open element is to the rules: how each row in it is judged.
#[derive(Clone, Copy, PartialEq, Eq, Debug)]
pub enum State {
    // Outside markup compatibility, neither ignored nor unwrapped.
    Kept,
    Unwrapped,
    Ignored,
    // AlternateContent
    Alternate,
    // Choice or Fallback
    Branch,
    // On the extension list, or inside such an element.
    Extension,
}
