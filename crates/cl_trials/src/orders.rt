//! The order in which definitions are evaluated, worked out by hand from the rule: depth first, what a form names in the order
//! of the text.
use cl_forms::{Form, Version, forms};
use cl_order::order;
use cl_sexpr::{Sexpr, read};
use std::alloc::Global;
use std::test::Fail;

// The items of a text, if it breaks no rule.
fn items_of(alloc: Global, text: &[u8]) -> Option<Vec<Sexpr>> {
    match read(alloc, text) {
        Ok(items) => Some(items),
        Err(_) => None,
    }
}

// The forms of a text, if it breaks no rule.
fn forms_of(alloc: Global, text: &[u8]) -> Option<Vec<Form>> {
    let items = items_of(alloc, text)?;
    match forms(alloc, items, Version::One) {
        Ok(list) => Some(list),
        Err(_) => None,
    }
}

// The order of a text's forms, if it has one.
fn ordered(alloc: Global, text: &[u8]) -> Option<Vec<u32>> {
    let list = forms_of(alloc, text)?;
    if list.len() >= 4_294_967_296 {
        return None;
    }
    match order(alloc, &list) {
        Ok(places) => Some(places),
        Err(_) => None,
    }
}

/// A text, and the places of its forms in order.
type Row = (&'static [u8], &'static [u32]);

const ORDERS: &[Row] = &[
    (b"", &[]),
    (b"(define-private (a) (b))(define-private (b) 1)", &[1, 0]),
    (b"(define-private (a) 1)(define-private (b) (a))", &[0, 1]),
    (b"(f) (define-private (f) 1)", &[1, 0]),
    // What is named goes in the order of the text, not of the names.
    (
        b"(define-private (a) (begin (c) (b)))(define-private (b) 1)(define-private (c) 2)",
        &[1, 2, 0],
    ),
    // b and c both name d.
    (
        b"(define-private (a) (begin (c) (b)))(define-private (b) (d))(define-private (c) (d))(define-private (d) 1)",
        &[3, 1, 2, 0],
    ),
    (
        b"(define-private (a) (+ (d) (d)))(define-private (b) (a))(define-private (c) (b))(define-private (d) 1)",
        &[3, 0, 1, 2],
    ),
    (
        b"(define-constant a b)(define-constant b d)(define-constant c a)(define-constant d 1)",
        &[3, 1, 0, 2],
    ),
    // Types name nothing; the expressions of variables and supplies do.
    (
        b"(define-map m {c: int} (tuple (c int)))(define-constant c 1)",
        &[0, 1],
    ),
    (b"(define-data-var v int c)(define-constant c 1)", &[1, 0]),
    (
        b"(define-fungible-token t c)(define-constant c u1)",
        &[1, 0],
    ),
    // Keys, and the contract and the function of a call, name nothing.
    (b"(define-private (f) {f: 1})", &[0]),
    (b"(define-private (f) (get f {f: 1}))", &[0]),
    (b"(define-private (f) (tuple (f 1) (g 2)))", &[0]),
    (b"(define-private (f) (contract-call? f f 1))", &[0]),
    (b"(define-private (f) (contract-call? .f f 1))", &[0]),
    (b"(define-private (f) \"f\")", &[0]),
];

fn is_ordered(alloc: Global, text: &[u8], places: &[u32]) -> bool {
    match ordered(alloc, text) {
        Some(found) => found.as_slice() == places,
        None => false,
    }
}

// the first row that isn't so
fn first_wrong(alloc: Global, rows: &[Row]) -> Option<usize> {
    for i in 0..rows.len() {
        if !is_ordered(alloc, rows[i].0, rows[i].1) {
            return Some(i);
        }
    }
    None
}

#[test]
fn orders(rt: HostRuntime) {
    assert_eq!(rt; first_wrong(rt.alloc(), ORDERS), None);
}

// A thousand constants that each name the next, or the one before; the end of the chain names none.
fn chain(alloc: Global, forward: bool) -> Result<String, Fail> {
    let mut text = String::new(alloc);
    for i in 0..1000u32 {
        let next = if forward { i + 1 } else { i.wrapping_sub(1) };
        let item = if next < 1000 {
            format!(in alloc; "(define-constant c{i} c{next})")?
        } else {
            format!(in alloc; "(define-constant c{i} 1)")?
        };
        text.push_str(item.as_str())?;
    }
    Ok(text)
}

// whether the forms of a chain go in the order of the text, or the other way round
fn is_chain(alloc: Global, text: &str, forward: bool) -> bool {
    let Some(places) = ordered(alloc, text.as_bytes()) else {
        return false;
    };
    for i in 0..places.len() {
        let place = places[i] as usize;
        if (forward && place + i != 999) || (!forward && place != i) {
            return false;
        }
    }
    places.len() == 1000
}

#[test]
fn a_long_chain(rt: HostRuntime) -> Result<(), Fail> {
    let text = chain(rt.alloc(), true)?;
    assert!(rt; is_chain(rt.alloc(), text.as_str(), true));
    Ok(())
}

#[test]
fn a_long_chain_backward(rt: HostRuntime) -> Result<(), Fail> {
    let text = chain(rt.alloc(), false)?;
    assert!(rt; is_chain(rt.alloc(), text.as_str(), false));
    Ok(())
}
