//! Places that may be missing.

ghost use Rattle.std.specs.Prelude.{◌≡◌};
ghost use Rattle.vsw_index.specs.Least.{lesser_of};

/// The lesser of two places that may be missing.
pub fn lesser(a: Option<u32>, b: Option<u32>) -> Option<u32>
    ensures { result ≡ lesser_of a b }
{
    match (a, b) {
        (Some(a), Some(b)) => Some(a.min(b)),
        (Some(a), None) => Some(a),
        (None, b) => b,
    }
}
