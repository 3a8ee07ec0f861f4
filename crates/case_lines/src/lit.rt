// Constants of cases.
ghost use Rattle.std.specs.Prelude.{◌≡◌, IfOk};

use cell_base::{Items, Memory, Text, Value};
use held_values::kept;
use std::alloc::Global;

/// A constant.
#[derive(Clone, Copy)]
pub enum Lit {
    Null,
    Flag(bool),
    Int(i64),
    Str(&'static str),
}

/// The text of the bytes.
pub fn text_of(alloc: Global, bytes: &[u8]) -> Result<Text, Memory>
    ensures { IfOk result (λ text. text ≡ bytes.now) }
{
    match Text::from_bytes(alloc, bytes) {
        Ok(text) => Ok(text),
        Err(_) => Err(Memory),
    }
}

/// The value of a constant.
pub fn value_of(alloc: Global, lit: Lit) -> Result<Value, Memory> {
    match lit {
        Lit::Null => Ok(Value::Null),
        Lit::Flag(flag) => Ok(Value::Flag(flag)),
        Lit::Int(n) => Ok(Value::Int(n)),
        Lit::Str(text) => Ok(Value::Text(text_of(alloc, text.as_bytes())?)),
    }
}

fn push_values(values: &mut Items<Value>, alloc: Global, lits: &[Lit]) -> Result<(), Memory> {
    for lit in lits {
        values.push(value_of(alloc, *lit)?)?;
    }
    Ok(())
}

/// The values of constants.
pub fn values_of(alloc: Global, lits: &[Lit]) -> Result<Items<Value>, Memory> {
    let mut values = Items::new(alloc);
    let pushed = push_values(&mut values, alloc, lits);
    kept(values, pushed)
}
