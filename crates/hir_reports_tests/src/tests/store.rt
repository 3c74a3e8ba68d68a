use bridge_decl::{Items, NoMemory, Text};
use hir_reports::{ErrorStore, LoweringError, LoweringReport, Rule};
use std::alloc::Global;

fn path(alloc: Global, segments: &[&str]) -> Result<Items<Text>, NoMemory> {
    let mut path = Items::new(alloc);
    for segment in segments {
        path.push(Text::new(alloc, segment)?)?;
    }
    Ok(path)
}

fn tell(alloc: Global, store: &mut ErrorStore<'_>, rule: Rule) -> Result<(), NoMemory> {
    store.push(LoweringError::new(alloc, rule, &[])?)
}

// One report at each kind of place, in the order of a walk.
fn walk<'tree>(
    alloc: Global,
    store: &mut ErrorStore<'tree>,
    first: &'tree [Text],
    second: &'tree [Text],
) -> Result<(), NoMemory> {
    tell(alloc, store, Rule::UnknownMark)?;
    store.set_module(first);
    store.set_item("Map");
    store.set_subitem("find");
    tell(alloc, store, Rule::BadIdent)?;
    store.clear_subitem();
    tell(alloc, store, Rule::ZeroSize)?;
    store.set_subitem("len");
    store.set_item("Set");
    tell(alloc, store, Rule::AbiLayout)?;
    store.set_module(second);
    tell(alloc, store, Rule::MarkRepeated)
}

// Whether the reports are of these rules, at these places.
fn are(
    alloc: Global,
    reports: &[LoweringReport],
    wanted: &[(Rule, &str)],
) -> Result<bool, NoMemory> {
    for (report, (rule, place)) in reports.iter().zip(wanted.iter()) {
        if report.rule() != *rule || report.context().to_string(alloc)?.as_str() != *place {
            return Ok(false);
        }
    }
    Ok(reports.len() == wanted.len())
}

const TOLD: [(Rule, &str); 5] = [
    (Rule::UnknownMark, "root module"),
    (Rule::BadIdent, "maps::Map::find"),
    (Rule::ZeroSize, "maps::Map"),
    (Rule::AbiLayout, "maps::Set"),
    (Rule::MarkRepeated, "maps::flat"),
];

#[test]
fn reports_stand_at_the_place_last_set(rt: HostRuntime) -> Result<(), NoMemory> {
    let first = path(rt.alloc(), &["maps"])?;
    let second = path(rt.alloc(), &["maps", "flat"])?;
    let mut store = ErrorStore::new(rt.alloc());
    walk(rt.alloc(), &mut store, first.as_slice(), second.as_slice())?;
    assert!(rt; store.len() == 5);
    store.truncate(9);
    let reports = store.take_errors();
    assert!(rt; store.is_empty());
    assert!(rt; are(rt.alloc(), reports.as_slice(), &TOLD)?);
    Ok(())
}

#[test]
fn the_last_reports_are_taken_back(rt: HostRuntime) -> Result<(), NoMemory> {
    let first = path(rt.alloc(), &["maps"])?;
    let mut store = ErrorStore::new(rt.alloc());
    walk(rt.alloc(), &mut store, first.as_slice(), &[])?;
    store.truncate(2);
    tell(rt.alloc(), &mut store, Rule::UnknownPair)?;
    let reports = store.take_errors();
    let wanted = [TOLD[0], TOLD[1], (Rule::UnknownPair, "root module")];
    assert!(rt; are(rt.alloc(), reports.as_slice(), &wanted)?);
    Ok(())
}
