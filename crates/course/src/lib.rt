// The course of a record: how far it has come, and what has been judged of it, in fixed memory.
#![tactic(auto)]

use enter::in_scope::InScope;
use frames::frame::Frame;
use order::progress::Progress;
use order::progress::next::LEVELS;
use record::refusal::Refusal;
use scope::bounded::Bounded;
use understood::Understood;

pub mod begin;
pub mod ends;
pub mod held;
pub mod rows;
pub mod take;

#[derive(Drop)]
pub struct Course {
    known: Understood,
    progress: Progress,
    scope: InScope,
    // Of the open elements that are judged, the innermost last.
    frames: Bounded<Frame, LEVELS>,
    // The first so far.
    mismatch: Option<Refusal>,
}
