//! How callbacks use definitions at each position, and which results are returned there.

ghost use Rattle.std.specs.Prelude.{◌≡◌, [], ◌∷◌, ◌++◌, OnOk, option_copied};
ghost use Rattle.hir_definitions.specs.declared.usage.ResultUsage.{ResultUsage};
ghost use Rattle.hir_mentions.specs.Mentions.{where_any};
ghost use Rattle.hir_usage.specs.Callbacks.{callback_usages};
ghost use Rattle.hir_usage.specs.Seen.{meant, id_lent};
ghost use Rattle.hir_usage.specs.Uses.{InResult};

use crate::callbacks::add_callback;
use crate::uses::{LentId, Use};
use bridge_decl::NoMemory;
use hir_types::{
    Callback, CallbackReturn, Everywhere, HirType, InputOnly, NoCallback, OutType, OutputOnly,
    ReturnableStructPath, StructPath, SuccessType, TyPosition,
};

/// How the parts of a type use definitions whose form depends on the position.
pub trait PositionUses: TyPosition {
    ghost use Rattle.std.specs.Prelude.{List};
    ghost use Rattle.hir_usage.specs.Uses.{Used};

    /// How a callback uses definitions.
    ghost of_callback: { Self.CallbackInstantiation → List Used };

    /// The struct that a path names.
    fn struct_id<'a>(path: &'a Self::StructPath) -> LentId<'a>
        ensures { id_lent result ≡ Self.StructPath.id_of path.now };

    /// Adds how a callback uses definitions. What has no value at a position can't be lent either,
    /// so there may be none.
    fn add_callback<'a>(
        uses: &mut Vec<Use<'a>>,
        callback: Option<&'a Self::CallbackInstantiation>,
    ) -> Result<(), NoMemory>
        ensures { OnOk result (meant uses.new
            ≡ meant uses.old ++ where_any of_callback (option_copied callback.entry)) };
}

impl PositionUses for Everywhere {
    ghost of_callback = { λ _. [] };

    fn struct_id<'a>(path: &'a StructPath) -> LentId<'a> {
        LentId::Struct(&path.tcx_id)
    }

    fn add_callback<'a>(
        _uses: &mut Vec<Use<'a>>,
        _callback: Option<&'a NoCallback>,
    ) -> Result<(), NoMemory> {
        Ok(())
    }
}

impl PositionUses for OutputOnly {
    ghost of_callback = { λ _. [] };

    fn struct_id<'a>(path: &'a ReturnableStructPath) -> LentId<'a> {
        match path {
            ReturnableStructPath::Struct(path) => LentId::Struct(&path.tcx_id),
            ReturnableStructPath::OutStruct(path) => LentId::OutStruct(&path.tcx_id),
        }
    }

    fn add_callback<'a>(
        _uses: &mut Vec<Use<'a>>,
        _callback: Option<&'a NoCallback>,
    ) -> Result<(), NoMemory> {
        Ok(())
    }
}

impl PositionUses for CallbackReturn {
    ghost of_callback = { λ _. [] };

    fn struct_id<'a>(path: &'a StructPath) -> LentId<'a> {
        LentId::Struct(&path.tcx_id)
    }

    fn add_callback<'a>(
        _uses: &mut Vec<Use<'a>>,
        _callback: Option<&'a NoCallback>,
    ) -> Result<(), NoMemory> {
        Ok(())
    }
}

impl PositionUses for InputOnly {
    ghost of_callback = { callback_usages };

    fn struct_id<'a>(path: &'a StructPath) -> LentId<'a> {
        LentId::Struct(&path.tcx_id)
    }

    fn add_callback<'a>(
        uses: &mut Vec<Use<'a>>,
        callback: Option<&'a Callback>,
    ) -> Result<(), NoMemory> {
        match callback {
            Some(callback) => add_callback(uses, callback),
            None => Ok(()),
        }
    }
}

/// A position of what is returned.
pub trait ReturnPosition: PositionUses {
    ghost use Rattle.std.specs.Prelude.{Option};
    ghost use Rattle.hir_types.specs.declared.returns.SuccessType.{SuccessType};
    ghost use Rattle.hir_types.specs.declared.types.HirType.{HirType};
    ghost use Rattle.hir_definitions.specs.declared.usage.ResultUsage.{ResultUsage};

    /// The result with this success and this error.
    ghost result_of: { SuccessType Self Self.CallbackInstantiation Self.OpaqueOwnership
        Self.StructId Self.StructPath Self.TraitPath
        → Option (HirType Self Self.CallbackInstantiation Self.OpaqueOwnership
        Self.StructId Self.StructPath Self.TraitPath) → ResultUsage };

    /// Adds that a definition is used in the result with this success and this error.
    fn add_result<'a>(
        uses: &mut Vec<Use<'a>>,
        id: LentId<'a>,
        ok: &'a SuccessType<Self>,
        err: &'a Option<HirType<Self>>,
    ) -> Result<(), NoMemory>
        ensures { OnOk result (meant uses.new
            ≡ meant uses.old ++ InResult (id_lent id.entry) (result_of ok.now err.now) ∷ []) };
}

impl ReturnPosition for OutputOnly {
    ghost result_of = { λ s e. ResultUsage.Output (record { ok = s; err = e }) };

    fn add_result<'a>(
        uses: &mut Vec<Use<'a>>,
        id: LentId<'a>,
        ok: &'a SuccessType<OutputOnly>,
        err: &'a Option<OutType>,
    ) -> Result<(), NoMemory> {
        uses.push(Use::Output(id, ok, err))?;
        Ok(())
    }
}

impl ReturnPosition for CallbackReturn {
    ghost result_of = { λ s e. ResultUsage.Input (record { ok = s; err = e }) };

    fn add_result<'a>(
        uses: &mut Vec<Use<'a>>,
        id: LentId<'a>,
        ok: &'a SuccessType<CallbackReturn>,
        err: &'a Option<HirType<CallbackReturn>>,
    ) -> Result<(), NoMemory> {
        uses.push(Use::Input(id, ok, err))?;
        Ok(())
    }
}
