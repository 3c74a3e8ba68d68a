//! The marks of declarations, read one by one.

ghost use Rattle.std.specs.Prelude.{◌≡◌, ◌&&◌, IfOk, Some, option_map};
ghost use Rattle.std.specs.Option.{option_copied};
ghost use Rattle.hir_attrs.specs.Includes.{include_of};
ghost use Rattle.hir_attrs.specs.Marks.{mark_form, mark_named};
ghost use Rattle.hir_attrs.specs.Special.{special_reading};
ghost use Rattle.hir_attrs.specs.Reading.{about, defaulted, has_location, included, is_denied, is_refused, literal_in, no_argument, renaming_pattern, read_form, read_mark, read_name, read_named, read_once, read_special, renamed, spaced, space_of, specialized, text_in, unsupported, when, wrong_argument};
ghost use Rattle.hir_backends.specs.Support.{checked};

use crate::attrs::Attrs;
use crate::change::{Change, Reading};
use crate::includes::{IncludeLocation, IncludeSource, include_of};
use crate::names::{Form, MarkName};
use crate::special::{MarkFault, SpecialMethod};
use crate::values::default_of;
use bridge_decl::{
    DiplomatBackendAttr, Lit, Meta, MetaValue, NoMemory, RenameAttr, RenameFault, Text,
};
use hir_backends::{AttributeValidator, Met, SupportFlag, meets};
use hir_reports::{LoweringError, Rule};
use std::alloc::{AllocError, Global};

/// A broken rule about a mark of that name.
fn about(alloc: Global, rule: Rule, name: &str) -> Result<LoweringError, NoMemory>
    ensures { IfOk result (λ error. error ≡ about rule name.now) }
{
    LoweringError::new(alloc, rule, &[name])
}

/// That rule about the mark, where it is broken.
fn when(
    alloc: Global,
    is_broken: bool,
    rule: Rule,
    name: &str,
) -> Result<Option<LoweringError>, NoMemory>
    ensures { IfOk result (λ error. error ≡ when is_broken (about rule name.now)) }
{
    if is_broken {
        Ok(Some(about(alloc, rule, name)?))
    } else {
        Ok(None)
    }
}

/// A mark that the backend doesn't support.
fn unsupported<V: AttributeValidator>(
    alloc: Global,
    v: &V,
    by_auto: bool,
    name: &str,
) -> Result<Reading, NoMemory>
    ensures { IfOk result
        (λ reading. reading ≡ unsupported (V.meaning v.now) by_auto name.now) }
{
    if by_auto {
        return Ok(Reading::skipped());
    }
    let error = LoweringError::new(alloc, Rule::MarkUnsupported, &[name, v.primary_name()])?;
    Ok(Reading::told(error))
}

/// A mark whose argument is wrong.
fn wrong_argument(alloc: Global, name: &str) -> Result<Reading, NoMemory>
    ensures { IfOk result (λ reading. reading ≡ wrong_argument name.now) }
{
    Ok(Reading::told(about(alloc, Rule::MarkArgument, name)?))
}

/// Whether there is no argument.
fn no_argument(value: &MetaValue) -> bool
    ensures { result ≡ no_argument value.now }
{
    match value {
        MetaValue::Empty => true,
        _ => false,
    }
}

/// The string that an argument is, if it is one.
fn text_in(value: &MetaValue) -> Option<&Text>
    ensures { option_copied result ≡ text_in value.now }
{
    match value {
        MetaValue::Literal(Lit::Str(text)) => Some(text),
        _ => None,
    }
}

/// A mark that stands once.
fn read_once(
    alloc: Global,
    by_auto: bool,
    attrs: &Attrs,
    mark: MarkName,
    value: &MetaValue,
) -> Result<Reading, NoMemory>
    ensures { IfOk result
        (λ reading. reading ≡ read_once by_auto attrs.now mark value.now) }
{
    let name = mark.text();
    if !no_argument(value) {
        return wrong_argument(alloc, name);
    }
    let first = when(alloc, mark.is_set(attrs), Rule::MarkRepeated, name)?;
    let second = when(
        alloc,
        by_auto && mark.refuses_auto(),
        Rule::AutoIneligible,
        name,
    )?;
    Ok(Reading {
        change: Change::Marks(mark),
        first,
        second,
    })
}

/// The pattern that a string is. None where it has more than one place for the name.
fn pattern_of(alloc: Global, text: &Text) -> Result<Option<RenameAttr>, NoMemory>
    ensures { IfOk result (λ pattern. pattern
        ≡ option_map (λ text. Some text) (renaming_pattern (Some text.now))) }
{
    match RenameAttr::new(alloc, text.as_str()) {
        Ok(pattern) => Ok(Some(pattern)),
        Err(RenameFault::Pattern) => Ok(None),
        Err(RenameFault::NoMemory) => Err(AllocError),
    }
}

/// A mark that replaces the name.
fn read_pattern(
    alloc: Global,
    by_auto: bool,
    mark: MarkName,
    value: &MetaValue,
) -> Result<Reading, NoMemory>
    ensures { IfOk result
        (λ reading. reading ≡ renamed by_auto mark (renaming_pattern (text_in value.now))) }
{
    let Some(text) = text_in(value) else {
        return wrong_argument(alloc, mark.text());
    };
    let Some(pattern) = pattern_of(alloc, text)? else {
        return wrong_argument(alloc, mark.text());
    };
    let is_broken = by_auto && mark.refuses_auto();
    let first = when(alloc, is_broken, Rule::AutoIneligible, mark.text())?;
    Ok(Reading {
        change: Change::Renames(pattern),
        first,
        second: None,
    })
}

/// The namespace that a text sets; the empty one clears it.
fn space_of(alloc: Global, text: &Text) -> Result<Option<Text>, NoMemory>
    ensures { IfOk result (λ space. space ≡ space_of text.now) }
{
    if text.as_str().is_empty() {
        Ok(None)
    } else {
        Ok(Some(text.try_clone(alloc)?))
    }
}

/// A mark that sets the namespace.
fn read_space(alloc: Global, mark: MarkName, value: &MetaValue) -> Result<Reading, NoMemory>
    ensures { IfOk result (λ reading. reading ≡ spaced mark (text_in value.now)) }
{
    match text_in(value) {
        Some(text) => Ok(Reading::only(Change::Names(space_of(alloc, text)?))),
        None => wrong_argument(alloc, mark.text()),
    }
}

/// Whether code is included at that location.
fn has_location(location: IncludeLocation, includes: &[(IncludeLocation, IncludeSource)]) -> bool
    ensures { result ≡ has_location location includes.now }
{
    for include in includes {
        if include.0.text() == location.text() {
            return true;
        }
    }
    false
}

/// A mark that includes code.
fn read_include(alloc: Global, attrs: &Attrs, value: &MetaValue) -> Result<Reading, NoMemory>
    ensures { IfOk result (λ reading. reading ≡ included attrs.now (include_of value.now)) }
{
    match include_of(alloc, value)? {
        Some((location, source)) => {
            if has_location(location, attrs.custom_extra_code.as_slice()) {
                let error = LoweringError::plain(alloc, Rule::IncludeRepeated);
                Ok(Reading::told(error))
            } else {
                Ok(Reading::only(Change::Includes(location, source)))
            }
        }
        None => Ok(Reading::told(LoweringError::plain(alloc, Rule::BadInclude))),
    }
}

/// A mark that gives a default value.
fn read_value(alloc: Global, mark: MarkName, value: &MetaValue) -> Result<Reading, NoMemory>
    ensures { IfOk result (λ reading. reading ≡ defaulted mark (literal_in value.now)) }
{
    match value {
        MetaValue::Literal(literal) => match default_of(literal) {
            Some(default) => Ok(Reading::only(Change::Defaults(default))),
            None => Ok(Reading::told(LoweringError::plain(alloc, Rule::BadDefaultValue))),
        },
        _ => wrong_argument(alloc, mark.text()),
    }
}

/// A mark by what it takes.
fn read_form(
    alloc: Global,
    by_auto: bool,
    attrs: &Attrs,
    mark: MarkName,
    value: &MetaValue,
) -> Result<Reading, NoMemory>
    ensures { IfOk result
        (λ reading. reading ≡ read_form (mark_form mark) by_auto attrs.now mark value.now) }
{
    match mark.form() {
        Form::Once => read_once(alloc, by_auto, attrs, mark, value),
        Form::Plain => Ok(Reading::only(Change::Marks(mark))),
        Form::Pattern => read_pattern(alloc, by_auto, mark, value),
        Form::Text => read_space(alloc, mark, value),
        Form::Include => read_include(alloc, attrs, value),
        Form::Value => read_value(alloc, mark, value),
    }
}

/// Whether a flag that is needed is off.
fn is_denied<V: AttributeValidator>(v: &V, flag: Option<SupportFlag>) -> bool
    ensures { result ≡ is_denied (V.meaning v.now) flag }
{
    match flag {
        Some(flag) => !v.attrs_supported().has(flag),
        None => false,
    }
}

/// A mark of a name that no special method has.
fn read_name<V: AttributeValidator>(
    alloc: Global,
    v: &V,
    by_auto: bool,
    attrs: &Attrs,
    name: &str,
    value: &MetaValue,
) -> Result<Reading, NoMemory>
    ensures { IfOk result (λ reading. reading ≡ read_name (V.meaning v.now) by_auto attrs.now
        name.now value.now (mark_named name.now)) }
{
    match MarkName::named(name) {
        None => Ok(Reading::told(about(alloc, Rule::UnknownMark, name)?)),
        Some(mark) => {
            if is_denied(v, mark.flag()) {
                unsupported(alloc, v, by_auto, name)
            } else {
                read_form(alloc, by_auto, attrs, mark, value)
            }
        }
    }
}

/// A mark of a special method. The first one stays.
fn specialized(
    alloc: Global,
    attrs: &Attrs,
    name: &str,
    method: SpecialMethod,
) -> Result<Reading, NoMemory>
    ensures { IfOk result
        (λ reading. reading ≡ specialized attrs.now.special_method name.now method) }
{
    match &attrs.special_method {
        Some(_) => Ok(Reading::told(about(alloc, Rule::SecondSpecial, name)?)),
        None => Ok(Reading::only(Change::Specializes(method))),
    }
}

/// A mark that the backend doesn't refuse by its name.
fn read_any<V: AttributeValidator>(
    alloc: Global,
    v: &V,
    by_auto: bool,
    attrs: &Attrs,
    name: &str,
    meta: &Meta,
) -> Result<Reading, NoMemory>
    ensures { IfOk result (λ reading. reading ≡ read_special (V.meaning v.now) by_auto attrs.now
        name.now meta.now.value (special_reading name.now meta.now.value)) }
{
    match SpecialMethod::from_path_and_meta(alloc, name, meta) {
        Ok(None) => read_name(alloc, v, by_auto, attrs, name, &meta.value),
        Ok(Some(method)) => specialized(alloc, attrs, name, method),
        Err(MarkFault::Argument) => wrong_argument(alloc, name),
        Err(MarkFault::NoMemory) => Err(AllocError),
    }
}

/// Whether `check_string` says that the backend doesn't support what the name asks.
fn is_refused<V: AttributeValidator>(v: &V, name: &str) -> bool
    ensures { result ≡ is_refused (checked (V.meaning v.now).supports name.now) }
{
    match v.attrs_supported().check_string(name) {
        Some(is_supported) => !is_supported,
        None => false,
    }
}

/// A mark of that name.
fn read_named<V: AttributeValidator>(
    alloc: Global,
    v: &V,
    by_auto: bool,
    attrs: &Attrs,
    name: &str,
    meta: &Meta,
) -> Result<Reading, NoMemory>
    ensures { IfOk result (λ reading. reading ≡ read_named (V.meaning v.now) by_auto attrs.now
        name.now meta.now.value) }
{
    if is_refused(v, name) {
        unsupported(alloc, v, by_auto, name)
    } else {
        read_any(alloc, v, by_auto, attrs, name, meta)
    }
}

/// What a mark changes in a set of marks, and which rules it breaks.
pub fn read_mark<V: AttributeValidator>(
    alloc: Global,
    v: &V,
    attrs: &Attrs,
    mark: &DiplomatBackendAttr,
) -> Result<Reading, NoMemory>
    ensures { IfOk result
        (λ reading. reading ≡ read_mark (V.meaning v.now) attrs.now mark.now) }
{
    match meets(v, &mark.cfg, true) {
        Met::Holds(by_auto) => match mark.meta.path.as_slice() {
            [name] => read_named(alloc, v, by_auto, attrs, name.as_str(), &mark.meta),
            _ => Ok(Reading::skipped()),
        },
        Met::Fails => Ok(Reading::skipped()),
        Met::Faulty(fault) => Ok(Reading::told(LoweringError::plain(alloc, fault.rule()))),
    }
}
