//! Laws that callers may rely on: each is the contract of a function without a body.

ghost use Rattle.std.specs.Prelude.{◌≡◌, ◌↔◌, None};
ghost use Rattle.std.specs.List.{Contains};
ghost use Rattle.bridge_decl.specs.declared.attrs.Attrs.{Attrs as Declared};
ghost use Rattle.bridge_decl.specs.declared.attrs.Lit.{Lit};
ghost use Rattle.bridge_decl.specs.declared.attrs.MetaValue.{MetaValue};
ghost use Rattle.bridge_decl.specs.declared.docs.Docs.{Docs as DeclaredDocs};
ghost use Rattle.hir_reports.specs.declared.report.LoweringError.{LoweringError};
ghost use Rattle.hir_backends.specs.Backend.{Backend};
ghost use Rattle.hir_attrs.specs.declared.attrs.Attrs.{Attrs};
ghost use Rattle.hir_attrs.specs.Includes.{include_of};
ghost use Rattle.hir_attrs.specs.Reading.{marks_errors};
ghost use Rattle.hir_attrs.specs.Values.{default_of};
ghost use Rattle.hir_docs.specs.Docs.{docs_errors};
ghost use Rattle.hir_mark_contexts.specs.Told.{context_errors};
ghost use Rattle.hir_mark_contexts.specs.declared.contexts.MarkContext.{MarkContext};
ghost use Rattle.hir_mark_rules.specs.ContextBreaks.{ContextBreaks};
ghost use Rattle.hir_mark_rules.specs.MarkBreaks.{DocsBreak, MarksBreak};
ghost use Rattle.hir_mark_rules.specs.rules.BadDefaultValue.{IsBadDefault};
ghost use Rattle.hir_mark_rules.specs.rules.BadInclude.{IsBadInclude};

/// What is told of the marks of a declaration is what breaks a rule: each mark that does, read after
/// those before it, and nothing else.
pub fn marks_are_told_by_their_rules()
    ensures { (backend : Backend) (declared : Declared) (parent : Attrs) (error : LoweringError)
        → Contains (marks_errors backend declared parent) error
        ↔ MarksBreak backend declared parent error }
{}

/// What is told of a set of marks by what is marked with it is what breaks a rule there, and nothing else.
pub fn contexts_are_told_by_their_rules()
    ensures { (backend : Backend) (context : MarkContext) (attrs : Attrs)
        (error : LoweringError) → Contains (context_errors backend context attrs) error
        ↔ ContextBreaks backend context attrs error }
{}

/// What is told of documents is what breaks a rule: the condition of each block that does.
pub fn documents_are_told_by_their_rules()
    ensures { (backend : Backend) (docs : DeclaredDocs) (error : LoweringError)
        → Contains (docs_errors backend docs) error ↔ DocsBreak backend docs error }
{}

/// An argument of `custom_extra_code` includes nothing exactly where it is a bad one, and a literal
/// gives no default value exactly where it is.
pub fn what_is_bad_gives_nothing()
    ensures includes { (it : MetaValue) → (include_of it ≡ None) ↔ IsBadInclude it }
    ensures defaults { (it : Lit) → (default_of it ≡ None) ↔ IsBadDefault it }
{}
