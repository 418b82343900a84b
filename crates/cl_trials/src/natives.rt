//! Whether natives are defined, and their values.
use crate::sequences::buffer;
use cl_apply::{NativeCall, apply, defined, try_apply};
use cl_seq::uint_value;
use cl_values::{Kind, Native, Val, Value};
use std::alloc::Global;
use std::test::Fail;

#[test]
fn sums_are_defined_of_numbers_of_one_kind(rt: HostRuntime) -> Result<(), Fail> {
    let sum = NativeCall::OnValues(Native::Add);
    let mut arguments = Vec::new(rt.alloc());
    for _ in 0..2 {
        let kind = Kind::Uint(7);
        arguments.push(Val::make(Value { kind })?)?;
    }
    assert!(rt; defined(&sum, &arguments));
    let kind = Kind::Int(7);
    arguments.push(Val::make(Value { kind })?)?;
    assert!(rt; !defined(&sum, &arguments));
    Ok(())
}

// Whether a native is defined at 0x010203, u1 and this value.
fn is_defined_of_a_buffer(alloc: Global, native: Native, last: Val) -> Result<bool, Fail> {
    let sequence = buffer(alloc, &[1, 2, 3])?;
    let call = NativeCall::OnValues(native);
    Ok(defined(&call, &[sequence, uint_value(1), last]))
}

#[test]
fn parts_are_defined_of_buffers(rt: HostRuntime) -> Result<(), Fail> {
    let alloc = rt.alloc();
    assert!(rt; is_defined_of_a_buffer(alloc, Native::Slice, uint_value(3))?);
    assert!(rt; is_defined_of_a_buffer(alloc, Native::ReplaceAt, buffer(alloc, &[4])?)?);
    Ok(())
}

fn is_uint(value: &Val, wanted: u128) -> bool {
    matches!(&value.value().kind, Kind::Uint(number) if *number == wanted)
}

fn seven_and_eight(alloc: Global) -> Result<Vec<Val>, Fail> {
    let mut values = Vec::new(alloc);
    values.push(uint_value(7))?;
    values.push(uint_value(8))?;
    Ok(values)
}

fn gives_a_sum(alloc: Global) -> Result<bool, Fail> {
    let sum = NativeCall::OnValues(Native::Add);
    let arguments = seven_and_eight(alloc)?;
    if !defined(&sum, &arguments) {
        return Ok(false);
    }
    let value = apply(alloc, &sum, arguments).ok().ok_or("a sum")?;
    Ok(is_uint(&value, 15))
}

fn gives_a_sum_at_any_values(alloc: Global) -> Result<bool, Fail> {
    let sum = NativeCall::OnValues(Native::Add);
    let tried = try_apply(alloc, &sum, seven_and_eight(alloc)?);
    let value = tried.ok().ok_or("a sum")?;
    Ok(is_uint(&value, 15))
}

// A sequence of two bytes is one of at most two, and none of at most one.
fn is_within(alloc: Global, most: u32) -> Result<bool, Fail> {
    let mut arguments = Vec::new(alloc);
    arguments.push(buffer(alloc, &[1, 2])?)?;
    let tried = try_apply(alloc, &NativeCall::AsMaxLen(most), arguments);
    let value = tried.ok().ok_or("an optional")?;
    Ok(matches!(&value.value().kind, Kind::Optional(Some(_))))
}

#[test]
fn natives_give_values(rt: HostRuntime) -> Result<(), Fail> {
    let alloc = rt.alloc();
    assert!(rt; gives_a_sum(alloc)?);
    assert!(rt; gives_a_sum_at_any_values(alloc)?);
    assert!(rt; is_within(alloc, 2)?);
    assert!(rt; !is_within(alloc, 1)?);
    Ok(())
}
