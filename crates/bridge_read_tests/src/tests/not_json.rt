//! Inputs that are no JSON text.

/// Texts that are answered `input: not JSON`.
pub const NOT_JSON: [&str; 44] = [
    // Texts that are cut off, or go on.
    "",
    " ",
    r#"{"root":{"#,
    r#"{"root":{}"#,
    r#"{"root":{}} x"#,
    r#"{"root":{}}{"root":{}}"#,
    r#"{"colour":1,"#,
    r#"{"root":{}}""#,
    // Punctuation.
    r#"{"root":{},}"#,
    r#"{"root" {}}"#,
    "{root:{}}",
    "{'root':{}}",
    r#"{"root":{"items":[,]}}"#,
    r#"{"root":{"items":[7,]}}"#,
    r#"{"root":{}/* */}"#,
    "{\"root\":\x0c{}}",
    // Words.
    "nul",
    "True",
    "undefined",
    "NaN",
    // Numbers.
    r#"{"root":01}"#,
    r#"{"root":+1}"#,
    r#"{"root":.5}"#,
    r#"{"root":1.}"#,
    r#"{"root":-}"#,
    r#"{"root":1e}"#,
    r#"{"root":0x1}"#,
    r#"{"root":-01}"#,
    // Numbers that no float of 64 bits holds, also of an unknown key.
    r#"{"root":{},"colour":1e999}"#,
    r#"{"root":{},"colour":-1e999}"#,
    r#"{"root":{},"colour":1000000000000000000000000000000000000000000000000000000000000000000000000000000000000000000000000000000000000000000000000000000000000000000000000000000000000000000000000000000000000000000000000000000000000000000000000000000000000000000000000000000000000000000000000000000000000000000000000000000000000000000000}"#,
    // Texts: half of a surrogate pair, unknown escapes, control characters.
    r#"{"root":{},"\ud800":1}"#,
    r#"{"root":{},"\udc00":1}"#,
    r#"{"root":{},"\ud800\u0041":1}"#,
    r#"{"root":{},"\ud800x":1}"#,
    r#"{"root":{},"\udc00\ud800":1}"#,
    r#"{"root":{},"\x41":1}"#,
    r#"{"root":{},"\u12g4":1}"#,
    r#"{"root":{},"\u12"#,
    "{\"root\":{},\"a\tb\":1}",
    "{\"root\":{},\"a\nb\":1}",
    // Deeper than 127.
    "[[[[[[[[[[[[[[[[[[[[[[[[[[[[[[[[[[[[[[[[[[[[[[[[[[[[[[[[[[[[[[[[[[[[[[[[[[[[[[[[[[[[[[[[[[[[[[[[[[[[[[[[[[[[[[[[[[[[[[[[[[[[[[[[]]]]]]]]]]]]]]]]]]]]]]]]]]]]]]]]]]]]]]]]]]]]]]]]]]]]]]]]]]]]]]]]]]]]]]]]]]]]]]]]]]]]]]]]]]]]]]]]]]]]]]]]]]]]]]]]]]]]]]]]]]]]]]]]",
    r#"{"root":{"attrs":{"marks":[{"if":{"not":{"not":{"not":{"not":{"not":{"not":{"not":{"not":{"not":{"not":{"not":{"not":{"not":{"not":{"not":{"not":{"not":{"not":{"not":{"not":{"not":{"not":{"not":{"not":{"not":{"not":{"not":{"not":{"not":{"not":{"not":{"not":{"not":{"not":{"not":{"not":{"not":{"not":{"not":{"not":{"not":{"not":{"not":{"not":{"not":{"not":{"not":{"not":{"not":{"not":{"not":{"not":{"not":{"not":{"not":{"not":{"not":{"not":{"not":{"not":{"not":{"not":{"not":{"not":{"not":{"not":{"not":{"not":{"not":{"not":{"not":{"not":{"not":{"not":{"not":{"not":{"not":{"not":{"not":{"not":{"not":{"not":{"not":{"not":{"not":{"not":{"not":{"not":{"not":{"not":{"not":{"not":{"not":{"not":{"not":{"not":{"not":{"not":{"not":{"not":{"not":{"not":{"not":{"not":{"not":{"not":{"not":{"not":{"not":{"not":{"not":{"not":{"not":{"not":{"not":{"not":{"not":{"not":{"not":{"not":{"not":{"not":{"not":"*"}}}}}}}}}}}}}}}}}}}}}}}}}}}}}}}}}}}}}}}}}}}}}}}}}}}}}}}}}}}}}}}}}}}}}}}}}}}}}}}}}}}}}}}}}}}}}}}}}}}}}}}}}}}}}}}}}}}}}}}}}}},"mark":["m"]}]}}}"#,
    r#"{"colour":[[[[[[[[[[[[[[[[[[[[[[[[[[[[[[[[[[[[[[[[[[[[[[[[[[[[[[[[[[[[[[[[[[[[[[[[[[[[[[[[[[[[[[[[[[[[[[[[[[[[[[[[[[[[[[[[[[[[[[[[[[[[[[[]]]]]]]]]]]]]]]]]]]]]]]]]]]]]]]]]]]]]]]]]]]]]]]]]]]]]]]]]]]]]]]]]]]]]]]]]]]]]]]]]]]]]]]]]]]]]]]]]]]]]]]]]]]]]]]]]]]]]]]]]]]]]]],"root":{}}"#,
];

/// Bytes that aren't UTF-8, also where a text has a fault before them, or that begin with a byte order mark.
pub const NOT_UTF8: [&[u8]; 9] = [
    b"\xff",
    b"{\"root\":{},\"\xff\":1}",
    b"{\"root\":{}}\xff",
    b"{\"root\":{},\"\xc3\":1}",
    b"{\"root\":{},\"\xc0\xaf\":1}",
    b"{\"root\":{},\"\xed\xa0\x80\":1}",
    b"{\"root\":{},\"\xf4\x90\x80\x80\":1}",
    b"{\"colour\":\xe2\x82",
    b"\xef\xbb\xbf{\"root\":{}}",
];
