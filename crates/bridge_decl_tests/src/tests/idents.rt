use bridge_decl::{IdentBuf, IdentFault, NoMemory, is_ident};

// Each with whether it is an identifier.
const CASES: [(&str, bool); 34] = [
    ("a", true),
    ("_s", true),
    ("__", true),
    ("a1_b", true),
    ("gen", true),
    ("union", true),
    ("auto", true),
    ("Match", true),
    ("asx", true),
    ("é", true),
    ("名", true),
    ("e\u{301}tat", true),
    ("r", true),
    ("r#a", true),
    ("r#match", true),
    ("r#_s", true),
    ("", false),
    ("_", false),
    ("1a", false),
    ("\u{301}a", false),
    ("a-b", false),
    ("a b", false),
    (" a", false),
    ("a😀", false),
    ("😀", false),
    ("a#", false),
    ("r#", false),
    ("r#_", false),
    ("r#1", false),
    ("r#r#a", false),
    ("r#crate", false),
    ("r#Self", false),
    ("r#super", false),
    ("r#self", false),
];

const WORDS: &str =
    "as break const continue crate else enum extern false fn for if impl in let loop match mod move mut \
    pub ref return self Self static struct super trait true type unsafe use where while async await dyn abstract become \
    box do final macro override priv try typeof unsized virtual yield";

#[test]
fn identifiers_are_told_apart(rt: HostRuntime) -> Result<(), NoMemory> {
    for (text, is_good) in CASES {
        assert!(rt; is_ident(text) == is_good);
        match IdentBuf::new(rt.alloc(), text) {
            Ok(ident) => {
                assert!(rt; is_good);
                assert!(rt; ident.as_str() == text);
            }
            Err(fault) => {
                assert!(rt; !is_good);
                assert!(rt; fault == IdentFault::Bad);
            }
        }
    }
    Ok(())
}

#[test]
fn reserved_words_are_refused(rt: HostRuntime) -> Result<(), NoMemory> {
    assert!(rt; WORDS.split_whitespace().count() == 51);
    for word in WORDS.split_whitespace() {
        assert!(rt; !is_ident(word));
        let raw = format!(in rt.alloc(); "r#{word}")?;
        let begins_path = ["crate", "self", "super", "Self"].contains(&word);
        assert!(rt; is_ident(raw.as_str()) == !begins_path);
    }
    Ok(())
}

#[test]
fn identifiers_are_compared(rt: HostRuntime) -> Result<(), IdentFault> {
    let first = IdentBuf::new(rt.alloc(), "r#match")?;
    let second = IdentBuf::new(rt.alloc(), "r#type")?;
    assert!(rt; first != second && first < second);
    Ok(())
}

#[test]
fn identifiers_are_copied_and_printed(rt: HostRuntime) -> Result<(), IdentFault> {
    let ident = IdentBuf::new(rt.alloc(), "r#match")?;
    let copy = ident.try_clone(rt.alloc())?;
    assert!(rt; copy == ident);
    assert!(rt; copy.to_string(rt.alloc())?.as_str() == "r#match");
    Ok(())
}
