//! The shape of a fabric: how many stores it has, and how many replicas each.

ghost use Rattle.std.specs.Prelude.{◌≡◌, true, false};
ghost use Rattle.fabric.specs.Stepping.{IsShape};

/// Whether there may be so many stores, of so many replicas each.
pub(crate) fn is_shape(stores: u32, replicas: u32) -> bool
    ensures yes { result ≡ true → IsShape stores replicas }
    ensures no { result ≡ false → ¬ IsShape stores replicas }
{
    stores >= 1 && stores <= 16 && (replicas == 3 || replicas == 5)
}
