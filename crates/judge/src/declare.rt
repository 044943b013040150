ghost use Rattle.std.specs.Prelude.{◌≡◌, ◌+◌, ◌++◌, map, length, OnOk, nat_lt};
ghost use Rattle.record.specs.declared.refusal.Refusal.TheVariants.{ScopeFull};
ghost use Rattle.rules.specs.Faults.{first, fault};
ghost use Rattle.scope.specs.Bounded.{held};
ghost use Rattle.trial.specs.Answers.{refusal_of};
ghost use Rattle.judge.specs.Tags.{bound_of};

use record::refusal::Refusal;
use record::row::PlacedRow;
use scope::entries::{Bindings, Bound};

// The declarations of an element, bound in their order; the place is that of its start.
pub fn declare(decls: &[PlacedRow], place: u32, bindings: &mut Bindings) -> Result<(), Refusal>
    ensures answer { refusal_of result ≡ first (fault (nat_lt 128 (length (held bindings.old) + length decls.now)) (ScopeFull place)) }
    ensures bound { OnOk result (held bindings.new ≡ held bindings.old ++ map bound_of decls.now) }
{
    for x in decls {
        let entry = Bound {
            prefix: x.row.a,
            space: x.row.b,
        };
        if !bindings.add(entry) {
            return Err(Refusal::ScopeFull { place });
        }
    }
    Ok(())
}
