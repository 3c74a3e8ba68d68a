//! What receivers are lowered to.

ghost use Rattle.std.specs.Prelude.{◌≡◌};
ghost use Rattle.bridge_rules.specs.Shapes.{slice_borrow};
ghost use Rattle.hir_form.specs.inside.Makes.{Makes};
ghost use Rattle.hir_form.specs.ReceiverForms.{entry_receiver, opaque_receiver, receiver_form};

use crate::shapes::{enum_path, struct_path};
use crate::stop::Stop;
use bridge_decl::Mutability;
use bridge_rules::{Catalog, Entry};
use hir_ids::{Borrow, MaybeOwn, NonOptional, OpaqueId};
use hir_life::{Lifetime, Lifetimes, MaybeStatic};
use hir_number::Target;
use hir_types::{OpaquePath, SelfType};
use std::alloc::Global;

/// The borrow of a receiver.
fn borrow_of(borrow: Option<(MaybeStatic<Lifetime>, Mutability)>) -> Option<Borrow>
    ensures { result ≡ slice_borrow borrow }
{
    match borrow {
        Some((lifetime, mutability)) => Some(Borrow {
            lifetime,
            mutability,
        }),
        None => None,
    }
}

/// An opaque as a receiver.
fn opaque_receiver(
    lifetimes: Lifetimes,
    id: usize,
    borrow: Option<Borrow>,
) -> Result<SelfType, Stop>
    ensures { Makes result (opaque_receiver lifetimes id borrow) }
{
    match borrow {
        Some(owner) => Ok(SelfType::Opaque(OpaquePath {
            lifetimes,
            optional: NonOptional,
            owner,
            tcx_id: OpaqueId::new(id),
        })),
        None => Err(Stop::Refused),
    }
}

fn entry_receiver(
    lifetimes: Lifetimes,
    borrow: Option<Borrow>,
    entry: Entry,
) -> Result<SelfType, Stop>
    ensures { Makes result (entry_receiver lifetimes borrow entry) }
{
    match entry {
        Entry::Struct(id, _) => {
            let owner = MaybeOwn::from(borrow);
            Ok(SelfType::Struct(struct_path(lifetimes, id, owner)))
        }
        Entry::OutStruct(_, _) => Err(Stop::Refused),
        Entry::Opaque(id, _) => opaque_receiver(lifetimes, id, borrow),
        Entry::Enum(id) => Ok(SelfType::Enum(enum_path(id))),
        Entry::Trait(id) => Ok(SelfType::Enum(enum_path(id))),
        Entry::Function(id) => Ok(SelfType::Enum(enum_path(id))),
    }
}

/// What a receiver is lowered to: `self` of a type, or a reference to it. `Refused` where it may
/// not be one.
pub fn lower_receiver(
    alloc: Global,
    catalog: &Catalog,
    borrow: Option<(MaybeStatic<Lifetime>, Mutability)>,
    target: &Target,
) -> Result<SelfType, Stop>
    ensures { Makes result (receiver_form catalog.now borrow target.now) }
{
    let lifetimes = target.lifetimes.try_clone(alloc)?;
    entry_receiver(lifetimes, borrow_of(borrow), catalog.entry(target.place))
}
