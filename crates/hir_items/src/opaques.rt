//! Opaques.

ghost use Rattle.std.specs.Prelude.{◌≡◌, ◌++◌, ◌<◌, IfOk, OnOk, length};
ghost use Rattle.bridge_ast.specs.Sound.{HasSoundLifetimes};
ghost use Rattle.bridge_decl.specs.Lifetimes.{IsSoundEnvironment};
ghost use Rattle.bridge_decl.specs.declared.modules.Item.TheVariants as item_of;
ghost use Rattle.hir_heads.specs.Told.{MadeUnlessTold};
ghost use Rattle.hir_items.specs.Opaques.{limit_errors, opaque_item_form, opaque_own_errors, opaque_reports};
ghost use Rattle.hir_items.specs.Placing.{unless_reported, where_enabled};
ghost use Rattle.hir_items.specs.Setting.{setting};
ghost use Rattle.hir_items.specs.inside.OpaqueParts.{opaque_own, opaque_own_form};
ghost use Rattle.hir_items.specs.inside.Reported.{GivenUnlessReported};
ghost use Rattle.hir_modules.specs.Holding.{HoldsStill};
ghost use Rattle.hir_number.specs.Naming.{IsNaming, Naming};
ghost use Rattle.hir_reports.specs.Store.{Held, Keeps, added};

use crate::choosing::unless_more;
use crate::defining::{Own, define};
use crate::heads::{Title, lower_title, lower_type_notes};
use crate::loans::Lowering;
use crate::telling::tell_if;
use crate::type_methods::lower_type_methods;
use bridge_ast::ItemPlace;
use bridge_decl::{IdentBuf, Items, LifetimeEnv, NoMemory, OpaqueType};
use hir_attrs::Attrs;
use hir_backends::AttributeValidator;
use hir_definitions::{Method, OpaqueDef, SpecialMethodPresence, TypingUseInfo};
use hir_elide::MOST_LIFETIMES;
use hir_heads::{Notes, lower_ident};
use hir_ids::Ident;
use hir_mark_contexts::MarkContext;
use hir_methods::paired;
use hir_reports::{ErrorStore, Rule};
use std::alloc::Global;

/// What an opaque has beside its notes and its methods.
#[derive(Drop)]
pub struct OpaqueOwn {
    /// Its name and its lifetimes.
    pub title: Title,
    /// The name of its destructor.
    pub dtor_abi_name: IdentBuf,
}

impl Own for OpaqueOwn {
    ghost use Rattle.hir_items.specs.inside.OpaqueParts.{defined_opaque};

    type Definition = OpaqueDef;

    ghost define = { defined_opaque };

    fn define(
        self,
        alloc: Global,
        notes: Notes,
        methods: Items<Method>,
        special_method_presence: SpecialMethodPresence,
    ) -> OpaqueDef {
        let OpaqueOwn {
            title,
            dtor_abi_name,
        } = self;
        let Title { name, lifetimes } = title;
        let Notes { docs, attrs } = notes;
        OpaqueDef {
            docs,
            name: Ident::new(name),
            methods,
            attrs,
            lifetimes,
            special_method_presence,
            dtor_abi_name,
            usage: TypingUseInfo::unused(alloc),
        }
    }
}

/// What an opaque has itself, where there are its title and the name of its destructor.
fn opaque_own(title: Option<Title>, dtor_abi_name: Option<IdentBuf>) -> Option<OpaqueOwn>
    ensures { result ≡ opaque_own title dtor_abi_name }
{
    match paired(title, dtor_abi_name) {
        Some((title, dtor_abi_name)) => Some(OpaqueOwn {
            title,
            dtor_abi_name,
        }),
        None => None,
    }
}

/// Tells of an enabled opaque with these marks that it declares too many lifetimes, where it does.
fn tell_limit(
    alloc: Global,
    marks: &Attrs,
    lifetimes: &LifetimeEnv,
    errors: &mut ErrorStore<'_>,
) -> Result<(), NoMemory>
    ensures told { OnOk result (errors.new
        ≡ added errors.old (where_enabled marks.now (limit_errors lifetimes.now))) }
    ensures kept { (earlier : Held) → Keeps earlier errors.old → Keeps earlier errors.new }
{
    if marks.disable {
        return Ok(());
    }
    let many = lifetimes.nodes.len() > MOST_LIFETIMES;
    tell_if(alloc, many, Rule::TooManyLifetimes, errors)
}

/// What an opaque with these marks has beside its notes and its methods.
fn lower_own(
    alloc: Global,
    marks: &Attrs,
    item: &OpaqueType,
    errors: &mut ErrorStore<'_>,
) -> Result<Option<OpaqueOwn>, NoMemory>
    requires { IsSoundEnvironment item.now.lifetimes }
    ensures told { OnOk result (errors.new
        ≡ added errors.old (opaque_own_errors marks.now item.now)) }
    ensures made { IfOk result (MadeUnlessTold
        (opaque_own_errors marks.now item.now) (opaque_own_form item.now)) }
    ensures kept { (earlier : Held) → Keeps earlier errors.old → Keeps earlier errors.new }
{
    let title = lower_title(alloc, &item.name, &item.lifetimes, errors)?;
    let dtor_abi_name = lower_ident(alloc, &item.dtor_abi_name, errors)?;
    tell_limit(alloc, marks, &item.lifetimes, errors)?;
    Ok(opaque_own(title, dtor_abi_name))
}

/// An opaque, where nothing is told of it.
fn lower_here<'tree, V: AttributeValidator>(
    lent: &Lowering<'_, V>,
    place: ItemPlace,
    module_set: &Attrs,
    item: &'tree OpaqueType,
    errors: &mut ErrorStore<'tree>,
) -> Result<Option<OpaqueDef>, NoMemory>
    requires number { place.«module» < length lent.now.env.now }
    requires sound { HasSoundLifetimes (item_of.Opaque item.now) }
    ensures told { (names : Naming) → IsNaming lent.now.env.now place.«module» names
        → OnOk result (errors.new.reports ≡ errors.old.reports ++ opaque_reports
        (setting (V.meaning lent.now.validator.now) lent.now names) errors.old.place.«module»
        place module_set.now item.now) }
    ensures made { (names : Naming) → IsNaming lent.now.env.now place.«module» names
        → IfOk result (GivenUnlessReported (opaque_reports
        (setting (V.meaning lent.now.validator.now) lent.now names) errors.old.place.«module»
        place module_set.now item.now) (opaque_item_form
        (setting (V.meaning lent.now.validator.now) lent.now names) place module_set.now
        item.now)) }
    ensures kept { HoldsStill errors.old errors.new }
{
    errors.set_item(item.name.as_str());
    let context = MarkContext::Opaque;
    let notes = lower_type_notes(lent, module_set, context, &item.docs, &item.attrs, errors)?;
    let own = lower_own(lent.alloc, &notes.attrs, item, errors)?;
    let methods = item.methods.as_slice();
    let methods = lower_type_methods(lent, place, module_set, &notes.attrs, methods, errors);
    define(lent.alloc, notes, own, methods)
}

/// An opaque at a place of a module with these marks, which is told with all that is wrong in it: at
/// itself, and at each of its methods. Of a disabled one its marks, the conditions of its documents,
/// its name, the names of its lifetimes and that of its destructor alone are tested, and it has no
/// methods. None exactly where something is told. The caller has set the module of the store.
/// `NoMemory` where there is no memory for it or for the reports.
pub fn lower_opaque<'tree, V: AttributeValidator>(
    lent: &Lowering<'_, V>,
    place: ItemPlace,
    module_set: &Attrs,
    item: &'tree OpaqueType,
    errors: &mut ErrorStore<'tree>,
) -> Result<Option<OpaqueDef>, NoMemory>
    requires number { place.«module» < length lent.now.env.now }
    requires sound { HasSoundLifetimes (item_of.Opaque item.now) }
    ensures told { (names : Naming) → IsNaming lent.now.env.now place.«module» names
        → OnOk result (errors.new.reports ≡ errors.old.reports ++ opaque_reports
        (setting (V.meaning lent.now.validator.now) lent.now names) errors.old.place.«module»
        place module_set.now item.now) }
    ensures made { (names : Naming) → IsNaming lent.now.env.now place.«module» names
        → IfOk result (λ made. made ≡ unless_reported (opaque_reports
        (setting (V.meaning lent.now.validator.now) lent.now names) errors.old.place.«module»
        place module_set.now item.now) (opaque_item_form
        (setting (V.meaning lent.now.validator.now) lent.now names) place module_set.now
        item.now)) }
    ensures kept { HoldsStill errors.old errors.new }
{
    let before = errors.len();
    let made = lower_here(lent, place, module_set, item, errors)?;
    Ok(unless_more(before, errors, made))
}
