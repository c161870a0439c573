//! The id of a record that was found.
ghost use Rattle.std.specs.Prelude.{◌≡◌, option_copied};
ghost use Rattle.std.specs.Option.{option_map};
ghost use Rattle.ldm_group.specs.Order.{id_of};

use ldm_group::id_of;
use ldm_records::Record;

/// The id of a record that was found.
pub fn id_in(found: Option<&Record>) -> Option<u64>
    ensures { result ≡ option_map id_of (option_copied found.entry) }
{
    found.map(|r| id_of(r))
}
