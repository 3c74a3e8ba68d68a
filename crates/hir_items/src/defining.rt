//! Definitions of what types have beside their methods, with their methods.

ghost use Rattle.std.specs.Prelude.{◌≡◌, IfOk, Ok};
ghost use Rattle.hir_items.specs.inside.Joining.{definition_of};

use bridge_decl::{Items, NoMemory};
use hir_definitions::{Method, SpecialMethodPresence};
use hir_heads::Notes;
use hir_presence::special_methods;
use std::alloc::Global;

/// What a type of one kind has beside its notes and its methods.
pub(crate) trait Own: Drop {
    ghost use Rattle.std.specs.Prelude.{List};
    ghost use Rattle.hir_definitions.specs.declared.methods.Method.{Method};
    ghost use Rattle.hir_heads.specs.declared.notes.Notes.{Notes};
    ghost use Rattle.hir_presence.specs.Presence.{special_methods};
    ghost use Rattle.std.specs.Prelude.{◌≡◌};

    /// A definition of that kind.
    type Definition: Drop;

    ghost define: { Notes → Self → List Method → Self.Definition };

    /// The definition with these notes and methods, of which these are special.
    fn define(
        self,
        alloc: Global,
        notes: Notes,
        methods: Items<Method>,
        special: SpecialMethodPresence,
    ) -> Self::Definition
        requires { special ≡ special_methods methods }
        ensures { result ≡ define notes self methods };
}

/// The definition, where there is what it has itself, unless there was no memory for its methods, or there is none for what it keeps of
/// the special ones.
pub(crate) fn define<N: Own>(
    alloc: Global,
    notes: Notes,
    own: Option<N>,
    methods: Result<Items<Method>, NoMemory>,
) -> Result<Option<N::Definition>, NoMemory>
    ensures { IfOk result (λ made. Ok made ≡ definition_of N.define notes own methods) }
{
    let methods = methods?;
    let special = special_methods(alloc, methods.as_slice())?;
    match own {
        Some(own) => Ok(Some(own.define(alloc, notes, methods, special))),
        None => Ok(None),
    }
}
