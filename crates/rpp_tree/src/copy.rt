// Copies of names and variables.
ghost use Rattle.std.specs.Prelude.{◌≡◌, IfOk};

use crate::tree::{Ident, Var, VarType};
use std::alloc::{AllocError, Global};

impl Ident {
    /// An equal name, at the same place. The only error is that memory ran out.
    pub fn copy(&self, alloc: Global) -> Result<Ident, AllocError>
        ensures { IfOk result (λ name. name ≡ self.now) }
    {
        Ok(Ident {
            at: self.at,
            text: self.text.copy(alloc)?,
        })
    }
}

impl VarType {
    /// An equal type, with equal places. The only error is that memory ran out.
    pub fn copy(&self, alloc: Global) -> Result<VarType, AllocError>
        ensures { IfOk result (λ kind. kind ≡ self.now) }
    {
        match self {
            VarType::Int => Ok(VarType::Int),
            VarType::Class(name) => Ok(VarType::Class(name.copy(alloc)?)),
            VarType::IntArray => Ok(VarType::IntArray),
            VarType::ClassArray(name) => Ok(VarType::ClassArray(name.copy(alloc)?)),
        }
    }
}

impl Var {
    /// An equal variable, with equal places. The only error is that memory ran out.
    pub fn copy(&self, alloc: Global) -> Result<Var, AllocError>
        ensures { IfOk result (λ var. var ≡ self.now) }
    {
        Ok(Var {
            kind: self.kind.copy(alloc)?,
            name: self.name.copy(alloc)?,
        })
    }
}

/// Equal names, with equal places. The only error is that memory ran out.
pub fn copy_names(alloc: Global, names: &[Ident]) -> Result<Vec<Ident>, AllocError>
    ensures { IfOk result (λ copied. copied.items ≡ names.now) }
{
    let mut copied = Vec::new(alloc);
    for name in names {
        copied.push(name.copy(alloc)?)?;
    }
    Ok(copied)
}

/// Equal variables, with equal places. The only error is that memory ran out.
pub fn copy_vars(alloc: Global, vars: &[Var]) -> Result<Vec<Var>, AllocError>
    ensures { IfOk result (λ copied. copied.items ≡ vars.now) }
{
    let mut copied = Vec::new(alloc);
    for var in vars {
        copied.push(var.copy(alloc)?)?;
    }
    Ok(copied)
}

/// An equal parent, with an equal place. The only error is that memory ran out.
pub fn copy_parent(alloc: Global, parent: &Option<Ident>) -> Result<Option<Ident>, AllocError>
    ensures { IfOk result (λ copied. copied ≡ parent.now) }
{
    match parent {
        None => Ok(None),
        Some(parent) => Ok(Some(parent.copy(alloc)?)),
    }
}
