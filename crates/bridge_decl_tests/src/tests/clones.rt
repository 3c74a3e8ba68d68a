use bridge_decl::{Items, NoMemory, Text, clone_items, clone_option, clone_texts};
use std::alloc::Global;

const WORDS: [&str; 3] = ["a", "", "a"];

fn texts(alloc: Global) -> Result<Items<Text>, NoMemory> {
    let mut texts = Items::new(alloc);
    for word in WORDS {
        texts.push(Text::new(alloc, word)?)?;
    }
    Ok(texts)
}

fn are_words(texts: &Items<Text>) -> bool {
    match texts.as_slice() {
        [first, second, third] => {
            first.as_str() == "a" && second.as_str() == "" && third.as_str() == "a"
        }
        _ => false,
    }
}

#[test]
fn lists_are_copied(rt: HostRuntime) -> Result<(), NoMemory> {
    let texts = texts(rt.alloc())?;
    let copies = clone_items(rt.alloc(), &texts, Text::try_clone)?;
    assert!(rt; are_words(&copies));
    Ok(())
}

#[test]
fn lists_of_texts_are_copied(rt: HostRuntime) -> Result<(), NoMemory> {
    let texts = texts(rt.alloc())?;
    let copies = clone_texts(rt.alloc(), &texts)?;
    assert!(rt; are_words(&copies));
    Ok(())
}

#[test]
fn a_value_that_is_there_is_copied(rt: HostRuntime) -> Result<(), NoMemory> {
    let value = Some(Text::new(rt.alloc(), "b")?);
    let copy = clone_option(rt.alloc(), &value, Text::try_clone)?;
    assert!(rt; matches!(&copy, Some(word) if word.as_str() == "b"));
    Ok(())
}

#[test]
fn an_absent_value_stays_absent(rt: HostRuntime) -> Result<(), NoMemory> {
    let copy: Option<Text> = clone_option(rt.alloc(), &None, Text::try_clone)?;
    assert!(rt; copy.is_none());
    Ok(())
}
