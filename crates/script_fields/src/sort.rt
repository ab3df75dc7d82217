//! What may stand in a field.

ghost use Rattle.std.specs.Prelude.{◌≡◌, pos, negsuc};
ghost use Rattle.std.specs.Result.{result_err};
ghost use Rattle.script_fields.specs.Sorts.{coordinate, fault_of};

use script_forms::{edge_of, exclusive_of, kind_of, op_of, seen_of};
use script_lines::{Cause, natural, number_in, rgb, rgba};

/// What may stand in a field.
#[derive(Clone, Copy)]
pub(crate) enum Sort {
    /// A number from `low` to `high`, neither of them below 0.
    Natural { low: u32, high: u32 },
    /// A number from `low` to `high`.
    Signed { low: i32, high: i32 },
    Rgb,
    Rgba,
    Kind,
    Op,
    Edge,
    Seen,
    Exclusive,
}

/// A column or a row.
pub(crate) const COORDINATE: Sort = Sort::Signed {
    low: -32768,
    high: 32767,
};

impl Sort {
    /// Why a field isn't of this sort. None where it is.
    pub(crate) fn fault(self, field: &[u8]) -> Option<Cause>
        ensures { result ≡ fault_of self field.now }
    {
        match self {
            Sort::Natural { low, high } => natural(low, high, field).err(),
            Sort::Signed { low, high } => number_in(low, high, field).err(),
            Sort::Rgb => rgb(field).err(),
            Sort::Rgba => rgba(field).err(),
            Sort::Kind => kind_of(field).err(),
            Sort::Op => op_of(field).err(),
            Sort::Edge => edge_of(field).err(),
            Sort::Seen => seen_of(field).err(),
            Sort::Exclusive => exclusive_of(field).err(),
        }
    }
}
