//! Writing types as text.
ghost use Rattle.std.specs.Prelude.{◌≡◌, ◌++◌, IfOk, codes, decimal};
ghost use Rattle.cl_types.specs.Types.{fields};
ghost use Rattle.cl_text.specs.Printed.{entry_text};
ghost use Rattle.cl_text.specs.PrintedTypes.{sized_text, printed_type, fields_text, more_fields_text};

use crate::printer::write_bytes;
use cl_types::{Name, NoMemory, SizedTy, Ty, TyKind};
use std::alloc::Global;

/// The text of a type, as a contract writes it; `no-type`, which no contract writes, prints as this
/// word.
pub fn print_type(alloc: Global, t: &SizedTy) -> Result<Vec<u8>, NoMemory>
    ensures { IfOk result (λ text. text.items ≡ printed_type t.now) }
{
    let mut out = Vec::new(alloc);
    write_type(&mut out, alloc, t.ty())?;
    Ok(out)
}

fn write_number(out: &mut Vec<u8>, alloc: Global, number: u32) -> Result<(), NoMemory>
    ensures { IfOk result (λ _. out.new.items ≡ out.old.items ++ decimal number) }
{
    let text = format!(in alloc; "{number}")?;
    write_bytes(out, text.as_bytes())
}

// A word with a greatest length.
fn write_sized(out: &mut Vec<u8>, alloc: Global, word: &[u8], most: u32) -> Result<(), NoMemory>
    ensures { IfOk result (λ _. out.new.items ≡ out.old.items ++ sized_text word.now most) }
{
    write_bytes(out, word)?;
    write_number(out, alloc, most)?;
    write_bytes(out, b")")
}

#[cycle(write)]
fn write_type(out: &mut Vec<u8>, alloc: Global, ty: &Ty) -> Result<(), NoMemory>
    ensures { IfOk result (λ _. out.new.items ≡ out.old.items ++ printed_type ty.now) }
{
    match &ty.kind {
        TyKind::NoType => write_bytes(out, b"no-type"),
        TyKind::Int => write_bytes(out, b"int"),
        TyKind::Uint => write_bytes(out, b"uint"),
        TyKind::Bool => write_bytes(out, b"bool"),
        TyKind::Principal => write_bytes(out, b"principal"),
        TyKind::Buff(most) => write_sized(out, alloc, b"(buff ", *most),
        TyKind::Ascii(most) => write_sized(out, alloc, b"(string-ascii ", *most),
        TyKind::Utf8(most) => write_sized(out, alloc, b"(string-utf8 ", *most),
        TyKind::List(most, entry) => write_list(out, alloc, *most, entry),
        TyKind::Tuple(row) => write_tuple(out, alloc, row),
        TyKind::Optional(part) => write_optional(out, alloc, part),
        TyKind::Response(good, bad) => write_response(out, alloc, good, bad),
    }
}

#[cycle(write)]
fn write_list(out: &mut Vec<u8>, alloc: Global, most: u32, entry: &Ty) -> Result<(), NoMemory>
    ensures { IfOk result (λ _. out.new.items
        ≡ out.old.items ++ (codes "(list "
        ++ (decimal most ++ (codes " " ++ (printed_type entry.now ++ codes ")"))))) }
{
    write_bytes(out, b"(list ")?;
    write_number(out, alloc, most)?;
    write_bytes(out, b" ")?;
    write_type(out, alloc, entry)?;
    write_bytes(out, b")")
}

#[cycle(write)]
fn write_optional(out: &mut Vec<u8>, alloc: Global, part: &Ty) -> Result<(), NoMemory>
    ensures { IfOk result (λ _. out.new.items
        ≡ out.old.items ++ (codes "(optional " ++ (printed_type part.now ++ codes ")"))) }
{
    write_bytes(out, b"(optional ")?;
    write_type(out, alloc, part)?;
    write_bytes(out, b")")
}

#[cycle(write)]
fn write_response(out: &mut Vec<u8>, alloc: Global, good: &Ty, bad: &Ty) -> Result<(), NoMemory>
    ensures { IfOk result (λ _. out.new.items
        ≡ out.old.items ++ (codes "(response "
        ++ (printed_type good.now ++ (codes " " ++ (printed_type bad.now ++ codes ")"))))) }
{
    write_bytes(out, b"(response ")?;
    write_type(out, alloc, good)?;
    write_bytes(out, b" ")?;
    write_type(out, alloc, bad)?;
    write_bytes(out, b")")
}

#[cycle(write)]
fn write_tuple(out: &mut Vec<u8>, alloc: Global, row: &[(Name, Ty)]) -> Result<(), NoMemory>
    ensures { IfOk result (λ _. out.new.items
        ≡ out.old.items ++ (codes "{" ++ (fields_text (fields row.now) ++ codes "}"))) }
{
    write_bytes(out, b"{")?;
    write_fields(out, alloc, row)?;
    write_bytes(out, b"}")
}

#[cycle(write)]
fn write_fields(out: &mut Vec<u8>, alloc: Global, row: &[(Name, Ty)]) -> Result<(), NoMemory>
    ensures { IfOk result (λ _. out.new.items ≡ out.old.items ++ fields_text (fields row.now)) }
{
    match row.split_first() {
        None => Ok(()),
        Some((first, others)) => {
            write_field(out, alloc, first)?;
            write_more(out, alloc, others)
        }
    }
}

// The keys behind another with their types, a comma in front of each.
#[cycle(write)]
fn write_more(out: &mut Vec<u8>, alloc: Global, row: &[(Name, Ty)]) -> Result<(), NoMemory>
    ensures { IfOk result (λ _. out.new.items ≡ out.old.items ++ more_fields_text (fields row.now)) }
{
    for field in row {
        write_bytes(out, b", ")?;
        write_field(out, alloc, field)?;
    }
    Ok(())
}

#[cycle(write)]
fn write_field(out: &mut Vec<u8>, alloc: Global, field: &(Name, Ty)) -> Result<(), NoMemory>
    ensures { IfOk result (λ _. out.new.items
        ≡ out.old.items ++ entry_text field.now.0 (printed_type field.now.1)) }
{
    write_bytes(out, field.0.bytes())?;
    write_bytes(out, b": ")?;
    write_type(out, alloc, &field.1)
}
