//! The law of the walk that callers may rely on: the contract of a function without a body of its own.

ghost use Rattle.std.specs.Prelude.{◌≡◌, []};
ghost use Rattle.hir_lowering.specs.Interface.{Interface};
ghost use Rattle.hir_lowering.specs.Lowered.{AreAllLowered, AreLowered, item_reports_in_order};
ghost use Rattle.hir_usage_notes.specs.declared.definitions.LoweredDefinitions.{LoweredDefinitions};

/// Where nothing is told of any item, each is made: the definitions of each kind are those of all its
/// items, in order.
pub fn what_is_fine_is_all_made()
    ensures { (it : Interface) (d : LoweredDefinitions) → item_reports_in_order it ≡ []
        → AreLowered it d → AreAllLowered it d }
{
    hir_items::what_is_fine_is_made();
    hir_traits::what_is_fine_is_made();
    bridge_places::a_listed_place_has_its_kind();
}
