ghost use Rattle.std.specs.Prelude.{◌≡◌, ℕ, false, []};
ghost use Rattle.file.specs.Form.{text_at};
ghost use Rattle.file.specs.Texts.{texts};
ghost use Rattle.knowledge.specs.Understood.{is_understood};
ghost use Rattle.understood.specs.Answers.{asked, asked_of, Knowing};

use crate::{TEXTS, Understood};
use file::texts::Texts;
use knowledge::{Knowledge, understands};
use scope::entries::Space;
use std::array;

// What the knowledge says of a text; what it says of the empty one was asked before.
#[tactic(auto, using(std::proofs::lemmas::List::nil_from_length))]
fn answer<K: Knowledge>(knowledge: &K, empty: bool, lent: Texts<'_>, n: u32) -> bool
    ensures { empty ≡ is_understood (K.Knowledge.meaning knowledge.now) [] → result ≡ is_understood (K.Knowledge.meaning knowledge.now) (text_at (texts lent.entry) n) }
{
    let text = lent.at(n);
    if text.is_empty() {
        empty
    } else {
        understands(knowledge, text)
    }
}

impl Understood {
    // A new reader's: nothing was asked.
    pub fn none() -> Understood
        ensures { (n : ℕ) → asked result n ≡ false }
    {
        Understood {
            answers: [false; TEXTS],
            empty: false,
        }
    }

    // Puts each text to the knowledge once.
    pub fn ask<K: Knowledge>(&mut self, knowledge: &K, lent: Texts<'_>)
        ensures { Knowing (texts lent.entry) (K.Knowledge.meaning knowledge.now) self.new }
    {
        let empty = understands(knowledge, b"");
        self.empty = empty;
        self.answers = array::from_fn(|n| answer(knowledge, empty, lent, n as u32));
    }

    // Whether the namespace of this number is understood.
    #[tactic(auto, unfolding(crate::specs::Answers::asked))]
    pub fn has(&self, n: u32) -> bool
        ensures { result ≡ asked self.now n }
    {
        self.answers.get(n as usize).copied().unwrap_or(self.empty)
    }

    // Whether a namespace in scope is understood; XML always is.
    pub fn has_space(&self, space: Space) -> bool
        ensures { result ≡ asked_of self.now space }
    {
        match space {
            Space::Text(n) => self.has(n),
            Space::Xml => true,
        }
    }
}
