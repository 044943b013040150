// What a reader knows: a yes or no for every byte string.
#![tactic(auto)]

ghost use Rattle.std.specs.Prelude.{◌≡◌, Bool, ◌||◌, List, ℕ};
ghost use Rattle.knowledge.specs.Understood.{is_understood};

use text::names::{is_mc, is_xml};

// A knowledge means a yes or no for every byte string. Its one question answers that and alters nothing.
pub trait Knowledge {
    ghost meaning: { Self → List ℕ → Bool };

    fn knows(&self, name: &[u8]) -> bool
        ensures { result ≡ meaning self.now name.now };
}

// Says yes when one of two knowledges does.
#[derive(Clone, Copy, Drop)]
pub struct Either<A, B> {
    pub first: A,
    pub second: B,
}

impl<A: Knowledge, B: Knowledge> Knowledge for Either<A, B> {
    ghost meaning = { λ e name. A.Knowledge.meaning e.first name || B.Knowledge.meaning e.second name };

    fn knows(&self, name: &[u8]) -> bool {
        self.first.knows(name) || self.second.knows(name)
    }
}

// Whether a namespace is understood: markup compatibility never, XML always, any other if the knowledge says yes.
#[tactic(auto, unfolding(crate::specs::Understood::is_understood))]
pub fn understands<K: Knowledge>(knowledge: &K, namespace: &[u8]) -> bool
    ensures { result ≡ is_understood (K.Knowledge.meaning knowledge.now) namespace.now }
{
    !is_mc(namespace) && (is_xml(namespace) || knowledge.knows(namespace))
}
