ghost use Rattle.attrs.specs.First.{IsFirstPassing};

use record::row::PlacedRow;

// The first attribute that passes.
pub(crate) fn first_attr<F: Fn(PlacedRow) -> bool>(
    attrs: &[PlacedRow],
    passes: F,
) -> Option<PlacedRow>
    requires { F.IsAlwaysCallable passes }
    ensures { IsFirstPassing (λ x b. F.post passes x b) attrs.now result }
{
    attrs.iter().copied().find(|x| passes(*x))
}
