ghost use Rattle.std.specs.Prelude.{◌≡◌, true, List, [], length, IfOk, if◌then◌else◌, Some, None};
ghost use Rattle.record.specs.Rows.{kind_of};
ghost use Rattle.record.specs.declared.row.Row.{Row};
ghost use Rattle.record.specs.declared.refusal.Refusal.TheVariants.{OutOfOrder};
ghost use Rattle.text.specs.Bytes.{Bytes};
ghost use Rattle.file.specs.Texts.{texts};
ghost use Rattle.knowledge.specs.Understood.{Knows};
ghost use Rattle.card.specs.Cards.{Name};
ghost use Rattle.rules.specs.Elements.{tokens};
ghost use Rattle.rules.specs.Mismatches.{mismatches};
ghost use Rattle.rules.specs.Faults.{first};
ghost use Rattle.rules.specs.Order.{row_faults, has_ended};
ghost use Rattle.trial.specs.Answers.{refusal_of};
ghost use Rattle.course.specs.Standing.{Stands, Fresh};

use crate::Course;
use enter::in_scope::InScope;
use file::texts::Texts;
use frames::frame::GROUND;
use knowledge::Knowledge;
use order::progress::Progress;
use record::refusal::Refusal;
use record::row::{Kind, Row};
use scope::bounded::Bounded;
use understood::Understood;

impl Course {
    // Of no record yet.
    pub fn new() -> Course
        ensures { Fresh result }
    {
        Course {
            known: Understood::none(),
            progress: Progress::new(),
            scope: InScope::new(),
            frames: Bounded::new(GROUND),
            mismatch: None,
        }
    }

    // The course of a record that has no rows yet; each text is put to the knowledge once.
    pub fn begin<K: Knowledge>(&mut self, knowledge: &K, lent: Texts<'_>)
        ensures { (extensions : List Name) → Stands (texts lent.entry) (K.Knowledge.meaning knowledge.now) extensions [] self.new }
    {
        self.known.ask(knowledge, lent);
        self.progress.reset();
        self.scope.cut(GROUND.lengths);
        self.frames.cut(0);
        self.mismatch = None;
    }

    // The kind of a row that may come next, or why it may not.
    pub fn check(&self, lent: Texts<'_>, row: Row) -> Result<Kind, Refusal>
        ensures answer { (knows : Knows) (extensions : List Name) (rows : List Row) → Stands (texts lent.entry) knows extensions rows self.now → refusal_of result ≡ first (row_faults (texts lent.entry) rows row) }
        ensures kind { IfOk result (λ k. kind_of row.kind ≡ Some k) }
    {
        self.progress.check(lent, row)
    }

    // Whether the record is at its end.
    pub fn check_end(&self) -> Result<(), Refusal>
        ensures { (names : List Bytes) (knows : Knows) (extensions : List Name) (rows : List Row) → Stands names knows extensions rows self.now → refusal_of result ≡ (if has_ended (tokens names rows) then None else Some (OutOfOrder (length rows))) }
    {
        if !self.progress.has_ended() {
            return Err(Refusal::OutOfOrder {
                place: self.progress.place(),
            });
        }
        Ok(())
    }

    // The first mismatch of a record that is at its end.
    #[tactic(auto, using(crate::proofs::Standing::ended_marked))]
    pub fn mismatch(&self) -> Option<Refusal>
        ensures { (names : List Bytes) (knows : Knows) (extensions : List Name) (rows : List Row) → Stands names knows extensions rows self.now → has_ended (tokens names rows) ≡ true → result ≡ first (mismatches knows extensions (tokens names rows)) }
    {
        self.mismatch
    }
}
