//! The lines of `root` and `prove`.
ghost use Rattle.std.specs.Prelude.{◌≡◌, ◌++◌, IfOk};
ghost use Rattle.std.specs.List.{flat_map};
ghost use Rattle.cl_replies.specs.Kept.{row_text_of};
ghost use Rattle.cl_replies.specs.Reports.{hex_text, root_line, side_line};

use cl_root::Side;
use cl_types::NoMemory;
use std::alloc::Global;

pub(crate) fn write_text(out: &mut Vec<u8>, text: &str) -> Result<(), NoMemory>
    ensures { IfOk result (λ _. out.new.items ≡ out.old.items ++ text.now) }
{
    out.extend_from_slice(text.as_bytes())?;
    Ok(())
}

fn write_hex(out: &mut Vec<u8>, alloc: Global, bytes: &[u8]) -> Result<(), NoMemory>
    ensures { IfOk result (λ _. out.new.items ≡ out.old.items ++ hex_text bytes.now) }
{
    let digits = hex::encode(alloc, bytes)?;
    write_text(out, "0x")?;
    write_text(out, digits.as_str())
}

/// The line of a root.
pub(crate) fn root_line(alloc: Global, root: &[u8; 32]) -> Result<Vec<u8>, NoMemory>
    ensures { IfOk result (λ text. text.items ≡ root_line root.now) }
{
    let mut text = Vec::new(alloc);
    write_text(&mut text, "root ")?;
    write_hex(&mut text, alloc, root)?;
    write_text(&mut text, "\n")?;
    Ok(text)
}

fn write_row(out: &mut Vec<u8>, alloc: Global, key: &[u8], value: &[u8]) -> Result<(), NoMemory>
    ensures { IfOk result (λ _. out.new.items ≡ out.old.items ++ row_text_of key.now value.now) }
{
    write_text(out, "row ")?;
    write_hex(out, alloc, key)?;
    write_text(out, " ")?;
    write_hex(out, alloc, value)?;
    write_text(out, "\n")
}

fn write_side(out: &mut Vec<u8>, alloc: Global, side: &Side) -> Result<(), NoMemory>
    ensures { IfOk result (λ _. out.new.items ≡ out.old.items ++ side_line side.now) }
{
    write_text(out, if side.left { "left " } else { "right " })?;
    write_hex(out, alloc, &side.digest)?;
    write_text(out, "\n")
}

fn write_sides(out: &mut Vec<u8>, alloc: Global, path: &[Side]) -> Result<(), NoMemory>
    ensures { IfOk result (λ _. out.new.items ≡ out.old.items ++ flat_map side_line path.now) }
{
    for side in path {
        write_side(out, alloc, side)?;
    }
    Ok(())
}

/// Behind the line of the root the row, by its key bytes and value bytes, and the sides of its path.
pub(crate) fn row_and_path(
    alloc: Global,
    root: &[u8; 32],
    key: &[u8],
    value: &[u8],
    path: &[Side],
) -> Result<Vec<u8>, NoMemory>
    ensures { IfOk result (λ text. text.items
        ≡ root_line root.now ++ (row_text_of key.now value.now ++ flat_map side_line path.now)) }
{
    let mut text = root_line(alloc, root)?;
    write_row(&mut text, alloc, key, value)?;
    write_sides(&mut text, alloc, path)?;
    Ok(text)
}
