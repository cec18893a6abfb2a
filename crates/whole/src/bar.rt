// The bar that ends a field.
ghost use Rattle.std.specs.Prelude.{◌≡◌, ◌+◌, ◌<◌, IfSome, length, slice_index};
ghost use Rattle.rules.specs.Bytes.{bar};

use field::bytes::BAR;

// Past the bar that should stand at e.
pub fn bar_past(s: &[u8], e: usize) -> Option<usize>
    requires { e < length s.now }
    ensures { IfSome result (λ past. (past ≡ e + 1) × (slice_index s.now e ≡ bar)) }
{
    (s[e] == BAR).then_some(e + 1)
}
