ghost use Rattle.std.specs.Prelude.{◌≡◌, List, IfOk, Some};
ghost use Rattle.text.specs.Bytes.{Bytes};
ghost use Rattle.record.specs.Rows.{kind_of};
ghost use Rattle.file.specs.Texts.{texts};
ghost use Rattle.rules.specs.Elements.{tokens};
ghost use Rattle.rules.specs.Faults.{first};
ghost use Rattle.rules.specs.Order.{is_in_order, is_forbidden, is_at_limit, row_faults};
ghost use Rattle.trial.specs.Answers.{refusal_of};
ghost use Rattle.order.specs.Following.{Follows};

use super::Progress;
use crate::form::{is_forbidden_decl, well_formed};
use file::texts::Texts;
use record::refusal::Refusal;
use record::row::{Kind, Row};

// At most this many elements are open together.
pub const LEVELS: usize = 64;

// A record has at most this many rows.
pub const ROWS: u32 = 2048;

impl Progress {
    // One root, declarations directly behind their start, then attributes, and no row outside the root.
    fn is_in_order(&self, kind: Kind) -> bool
        ensures { (ts : List Bytes) (past : List Row) → Follows ts past self.now → result ≡ is_in_order (Some kind) (tokens ts past) }
    {
        match kind {
            Kind::Start => !self.has_ended(),
            Kind::Declaration => self.waiting.lacks_attrs(),
            Kind::Attribute => self.waiting.is_present(),
            Kind::Text | Kind::End => self.depth != 0,
        }
    }

    // A forbidden declaration, or a prefix or attribute name that the element has already.
    fn is_forbidden(&self, kind: Kind, lent: Texts<'_>, row: Row) -> bool
        ensures { (past : List Row) → Follows (texts lent.entry) past self.now → result ≡ is_forbidden (Some kind) (texts lent.entry) row (tokens (texts lent.entry) past) }
    {
        match kind {
            Kind::Declaration => {
                is_forbidden_decl(lent.at(row.a), lent.at(row.b))
                    || self.waiting.repeats_prefix(lent, lent.at(row.a))
            }
            Kind::Attribute => self
                .waiting
                .repeats_attr(lent, lent.at(row.a), lent.at(row.b)),
            Kind::Start | Kind::Text | Kind::End => false,
        }
    }

    // As many elements open together, or as many declarations or attributes on one, as there may be.
    fn is_at_limit(&self, kind: Kind) -> bool
        ensures { (ts : List Bytes) (past : List Row) → Follows ts past self.now → result ≡ is_at_limit (Some kind) (tokens ts past) }
    {
        match kind {
            Kind::Start => self.depth >= LEVELS,
            Kind::Declaration => self.waiting.is_full_of_decls(),
            Kind::Attribute => self.waiting.is_full_of_attrs(),
            Kind::Text | Kind::End => false,
        }
    }

    // The kind of a row that may come next, or why it may not.
    pub fn check(&self, lent: Texts<'_>, row: Row) -> Result<Kind, Refusal>
        ensures answer { (past : List Row) → Follows (texts lent.entry) past self.now → refusal_of result ≡ first (row_faults (texts lent.entry) past row) }
        ensures kind { IfOk result (λ k. kind_of row.kind ≡ Some k) }
    {
        let place = self.rows;
        let kind = well_formed(lent, row).ok_or(Refusal::BadRow { place })?;
        if !self.is_in_order(kind) {
            return Err(Refusal::OutOfOrder { place });
        }
        if self.is_forbidden(kind, lent, row) {
            return Err(Refusal::Forbidden { place });
        }
        if self.is_at_limit(kind) || self.rows >= ROWS {
            return Err(Refusal::TooMany { place });
        }
        Ok(kind)
    }
}
