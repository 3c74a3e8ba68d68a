//! The law that both readings of callables agree: the contract of a function without a body.

ghost use Rattle.std.specs.Prelude.{◌≡◌};
ghost use Rattle.bridge_callables.specs.Declared.{declared_callables};
ghost use Rattle.bridge_places.specs.Entries.{IsCatalog};
ghost use Rattle.bridge_report.specs.InContext.{callables};
ghost use Rattle.hir_context.specs.declared.parts.Definitions.{Definitions};
ghost use Rattle.hir_lower.specs.Contexts.{StandForItems};
ghost use Rattle.hir_lowering.specs.Interface.{Interface};

/// The callables of a context that stands for declarations are those of the declarations: the same
/// ones in the same order, each with the same id, place, receiver, lifetimes, inputs and leaves.
pub fn callables_are_read_as_declared()
    ensures { (it : Interface) (defs : Definitions) → IsCatalog it.modules it.catalog
        → StandForItems it defs → callables defs ≡ declared_callables it }
{}
