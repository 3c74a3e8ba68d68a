//! Rows of cells, of which equal ones that follow one another stand once, with their number after a `*`.

use bridge_decl::NoMemory;
use std::alloc::Global;

fn put_run(alloc: Global, text: &mut String, cell: &str, times: usize) -> Result<(), NoMemory> {
    if times == 0 {
        return Ok(());
    }
    if !text.is_empty() {
        text.push_str(" / ")?;
    }
    text.push_str(cell)?;
    if times > 1 {
        text.push_str("*")?;
        text.push_str(times.to_string(alloc)?.as_str())?;
    }
    Ok(())
}

/// Cells as a text, with ` / ` between each two.
pub fn row(alloc: Global, cells: &[String]) -> Result<String, NoMemory> {
    let mut text = String::new(alloc);
    let mut last = "";
    let mut times: usize = 0;
    for cell in cells {
        if cell.as_str() == last {
            times = times.saturating_add(1);
        } else {
            put_run(alloc, &mut text, last, times)?;
            last = cell.as_str();
            times = 1;
        }
    }
    put_run(alloc, &mut text, last, times)?;
    Ok(text)
}
