//! Whether a join leaves one of its sides as it is.
ghost use Rattle.std.specs.Prelude.{◌≡◌, true, length, nat_le};
ghost use Rattle.std.specs.List.{list_all};
ghost use Rattle.datasets.specs.Id.{id_order};
ghost use Rattle.meaning.specs.Mapping.{mapping_cmp};
ghost use Rattle.meaning.specs.Operators.{join};
ghost use Rattle.sets.specs.Sets.{set_of};

use crate::mapping::Mapping;

/// Whether the left is one mapping that binds no variable, and has as many of them as any on the
/// right: the right joined with it is the right.
pub fn is_unit(left: &[Mapping], right: &[Mapping]) -> bool
    ensures { result ≡ true → join id_order left.now right.now
        ≡ set_of (mapping_cmp id_order) right.now }
{
    match left {
        [only] => only.binds_none() && are_within(only.width(), right),
        _ => false,
    }
}

// Whether none of these has more variables.
fn are_within(width: usize, mappings: &[Mapping]) -> bool
    ensures { result ≡ list_all (λ m. nat_le (length m) width) mappings.now }
{
    mappings.iter().all(|mapping| mapping.width() <= width)
}
