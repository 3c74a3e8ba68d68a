//! What stands for structs, traits and callbacks at each position, and what it names.

ghost use Rattle.std.specs.Prelude.{◌≡◌, [], ◌++◌, OnOk, option_copied};
ghost use Rattle.hir_mentions.specs.Callbacks.{callback_mentions};
ghost use Rattle.hir_mentions.specs.Mentions.{Mentioned, borrow_mentions, where_any};
ghost use Rattle.hir_mentions.specs.Seen.{all_mentioned};
ghost use Rattle.hir_mentions.specs.Types.{returnable_mentions, struct_path_mentions, trait_path_mentions};

use crate::callbacks::add_callback;
use crate::mentions::Mention;
use crate::types::{add_borrow, add_out_path, add_owner, add_struct_path, add_trait_path};
use bridge_decl::NoMemory;
use hir_ids::{Borrow, MaybeOwn};
use hir_types::{
    Callback, CallbackReturn, Everywhere, InputOnly, NoCallback, NoTraitPath, OutputOnly,
    ReturnableStructPath, StructPath, TraitPath, TyPosition,
};

/// What the parts of a type name whose form depends on the position.
pub trait PositionMentions: TyPosition {
    ghost use Rattle.std.specs.Prelude.{List};
    ghost use Rattle.hir_mentions.specs.Mentions.{Mentioned};

    /// What a path to a struct names.
    ghost of_struct: { Self.StructPath → List Mentioned };

    /// What a path to a trait names.
    ghost of_trait: { Self.TraitPath → List Mentioned };

    /// What a callback names.
    ghost of_callback: { Self.CallbackInstantiation → List Mentioned };

    /// Adds what a path to a struct names.
    fn add_struct<'a>(
        mentions: &mut Vec<Mention<'a>>,
        path: &'a Self::StructPath,
    ) -> Result<(), NoMemory>
        ensures { OnOk result (all_mentioned mentions.new
            ≡ all_mentioned mentions.old ++ of_struct path.now) };

    /// Adds the lifetime by which an opaque is borrowed, where it is.
    fn add_owner<'a>(
        mentions: &mut Vec<Mention<'a>>,
        owner: &'a Self::OpaqueOwnership,
    ) -> Result<(), NoMemory>
        ensures { OnOk result (all_mentioned mentions.new ≡ all_mentioned mentions.old
            ++ where_any borrow_mentions (Self.OpaqueOwnership.borrow_of owner.now)) };

    /// Adds what a path to a trait names. What has no value at a position can't be lent either, so
    /// there may be none.
    fn add_trait<'a>(
        mentions: &mut Vec<Mention<'a>>,
        path: Option<&'a Self::TraitPath>,
    ) -> Result<(), NoMemory>
        ensures { OnOk result
            (all_mentioned mentions.new ≡ all_mentioned mentions.old
            ++ where_any of_trait (option_copied path.entry)) };

    /// Adds what a callback names, where there is one.
    fn add_callback<'a>(
        mentions: &mut Vec<Mention<'a>>,
        callback: Option<&'a Self::CallbackInstantiation>,
    ) -> Result<(), NoMemory>
        ensures { OnOk result
            (all_mentioned mentions.new ≡ all_mentioned mentions.old
            ++ where_any of_callback (option_copied callback.entry)) };
}

impl PositionMentions for Everywhere {
    ghost of_struct = { struct_path_mentions };

    ghost of_trait = { λ _. [] };

    ghost of_callback = { λ _. [] };

    fn add_struct<'a>(
        mentions: &mut Vec<Mention<'a>>,
        path: &'a StructPath,
    ) -> Result<(), NoMemory> {
        add_struct_path(mentions, path)
    }

    fn add_owner<'a>(mentions: &mut Vec<Mention<'a>>, owner: &'a Borrow) -> Result<(), NoMemory> {
        add_borrow(mentions, owner)
    }

    fn add_trait<'a>(
        _mentions: &mut Vec<Mention<'a>>,
        _path: Option<&'a NoTraitPath>,
    ) -> Result<(), NoMemory> {
        Ok(())
    }

    fn add_callback<'a>(
        _mentions: &mut Vec<Mention<'a>>,
        _callback: Option<&'a NoCallback>,
    ) -> Result<(), NoMemory> {
        Ok(())
    }
}

impl PositionMentions for OutputOnly {
    ghost of_struct = { returnable_mentions };

    ghost of_trait = { λ _. [] };

    ghost of_callback = { λ _. [] };

    fn add_struct<'a>(
        mentions: &mut Vec<Mention<'a>>,
        path: &'a ReturnableStructPath,
    ) -> Result<(), NoMemory> {
        match path {
            ReturnableStructPath::Struct(path) => add_struct_path(mentions, path),
            ReturnableStructPath::OutStruct(path) => add_out_path(mentions, path),
        }
    }

    fn add_owner<'a>(mentions: &mut Vec<Mention<'a>>, owner: &'a MaybeOwn) -> Result<(), NoMemory> {
        add_owner(mentions, owner)
    }

    fn add_trait<'a>(
        _mentions: &mut Vec<Mention<'a>>,
        _path: Option<&'a NoTraitPath>,
    ) -> Result<(), NoMemory> {
        Ok(())
    }

    fn add_callback<'a>(
        _mentions: &mut Vec<Mention<'a>>,
        _callback: Option<&'a NoCallback>,
    ) -> Result<(), NoMemory> {
        Ok(())
    }
}

impl PositionMentions for CallbackReturn {
    ghost of_struct = { struct_path_mentions };

    ghost of_trait = { trait_path_mentions };

    ghost of_callback = { λ _. [] };

    fn add_struct<'a>(
        mentions: &mut Vec<Mention<'a>>,
        path: &'a StructPath,
    ) -> Result<(), NoMemory> {
        add_struct_path(mentions, path)
    }

    fn add_owner<'a>(mentions: &mut Vec<Mention<'a>>, owner: &'a Borrow) -> Result<(), NoMemory> {
        add_borrow(mentions, owner)
    }

    fn add_trait<'a>(
        mentions: &mut Vec<Mention<'a>>,
        path: Option<&'a TraitPath>,
    ) -> Result<(), NoMemory> {
        match path {
            Some(path) => add_trait_path(mentions, path),
            None => Ok(()),
        }
    }

    fn add_callback<'a>(
        _mentions: &mut Vec<Mention<'a>>,
        _callback: Option<&'a NoCallback>,
    ) -> Result<(), NoMemory> {
        Ok(())
    }
}

impl PositionMentions for InputOnly {
    ghost of_struct = { struct_path_mentions };

    ghost of_trait = { trait_path_mentions };

    ghost of_callback = { callback_mentions };

    fn add_struct<'a>(
        mentions: &mut Vec<Mention<'a>>,
        path: &'a StructPath,
    ) -> Result<(), NoMemory> {
        add_struct_path(mentions, path)
    }

    fn add_owner<'a>(mentions: &mut Vec<Mention<'a>>, owner: &'a Borrow) -> Result<(), NoMemory> {
        add_borrow(mentions, owner)
    }

    fn add_trait<'a>(
        mentions: &mut Vec<Mention<'a>>,
        path: Option<&'a TraitPath>,
    ) -> Result<(), NoMemory> {
        match path {
            Some(path) => add_trait_path(mentions, path),
            None => Ok(()),
        }
    }

    fn add_callback<'a>(
        mentions: &mut Vec<Mention<'a>>,
        callback: Option<&'a Callback>,
    ) -> Result<(), NoMemory> {
        match callback {
            Some(callback) => add_callback(mentions, callback),
            None => Ok(()),
        }
    }
}
