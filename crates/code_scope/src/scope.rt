// The scope of a statement.
ghost use Rattle.std.specs.Prelude.{◌≡◌, ◌<◌, ◌≤◌, ◌^◌, ◌∷◌, map, length, reverse, IfOk, OnOk, OnErr, IfSome, slice_get};
ghost use Rattle.std.specs.Option.{option_map, unwrap_or};
ghost use Rattle.refine_form.specs.rpp_tree.Views.{source_of, procedure_of};
ghost use Rattle.refine_form.specs.class_rules.Members.{no_procedure};
ghost use Rattle.refine_form.specs.class_rules.Classes.{procedure_at};
ghost use Rattle.refine_form.specs.code_conventions.declared.memory.TheConstants.{MOST_VARIABLES};
ghost use Rattle.code_scope.specs.Visible.{offset_of, kind_named, spot_named, free_words_of, known_by, known_in, outer_of};

use crate::known::Names;
use crate::names::{free_word, kind_by, spot_by};
use class_table::tree::{Method, Var, VarType};
use class_table::{Checked, MethodId, NoMemory, Text, copy_vars, methods_at};
use refine_form::Spot;
use std::alloc::Global;
use std::marker::Model;

/// The storage slots of a method's visible variables. Each parameter and local is in a word of the
/// current frame, the outermost in the first one, and each field is in the current object. The last
/// parameter is the outermost variable.
#[derive(Drop)]
pub struct Scope<'a> {
    checked: &'a Checked,
    method: MethodId,
    variables: Vec<Var>,
}

impl<'a> Model for Scope<'a> {
    ghost use Rattle.refine_form.specs.rpp_tree.contracts.tree.Stmt as stmt;
    ghost use Rattle.refine_form.specs.rpp_tree.contracts.tree.Expr as expr;
    ghost use Rattle.std.specs.Coded.{codes};
    ghost use Rattle.code_scope.specs.Visible.{Visible};

    ghost Value = { Visible };

    ghost coded = { Prim.hlevel (codes, stmt.the_row.coded, expr.the_row.coded) };

    ghost use Rattle.std.specs.Prelude.{◌≤◌, length, reverse};
    ghost use Rattle.refine_form.specs.code_conventions.declared.memory.TheConstants.{MOST_VARIABLES};

    ghost view = { λ s. record {
      program = s.checked.now;
      method = s.method;
      variables = reverse s.variables.items;
    } };

    ghost invariant = { λ s. length s.variables.items ≤ MOST_VARIABLES };
}

// The parameters of the method of this number.
fn parameters(methods: &[Method], number: u32) -> &[Var]
    ensures { result.now ≡
        (unwrap_or (slice_get (map procedure_of methods.now) number) no_procedure).params }
{
    match methods.get(number as usize) {
        None => &[],
        Some(method) => &method.params,
    }
}

// The parameters of a method.
fn params_of(checked: &Checked, id: MethodId) -> &[Var]
    ensures value { result.now ≡ (procedure_at (source_of checked.now) id).params }
    ensures few { length result.now ≤ 16 }
{
    let program = checked.program();
    parameters(methods_at(program, id.class), id.method)
}

impl<'a> Scope<'a> {
    /// The scope at the beginning of a method's body: the parameters are visible, the first as the
    /// innermost variable, and the fields of the class that declares it. The only error is that
    /// memory ran out.
    pub fn of_method(
        alloc: Global,
        checked: &'a Checked,
        id: MethodId,
    ) -> Result<Scope<'a>, NoMemory>
        ensures { IfOk result (λ scope. scope ≡ record {
          program = checked.now;
          method = id;
          variables = (procedure_at (source_of checked.now) id).params;
        }) }
    {
        let mut variables = copy_vars(alloc, params_of(checked, id))?;
        variables.reverse();
        Ok(Scope {
            checked,
            method: id,
            variables,
        })
    }

    /// A local is declared: its word is `free`. The only error is that memory ran out.
    pub fn push(&mut self, alloc: Global, var: &Var) -> Result<(), NoMemory>
        requires { length self.old.variables < MOST_VARIABLES }
        ensures pushed { OnOk result
            (self.new ≡ record self.old { variables = var.now ∷ self.old.variables }) }
        ensures kept { OnErr result (self.new ≡ self.old) }
    {
        let var = var.copy(alloc)?;
        self.variables.push(var)?;
        Ok(())
    }

    /// The innermost local is gone.
    pub fn pop(&mut self)
        ensures { self.new ≡ record self.old { variables = outer_of self.old.variables } }
    {
        self.variables.pop();
    }

    /// The program with its class table.
    pub fn checked(&self) -> &'a Checked
        ensures { result.now ≡ self.now.program }
    {
        self.checked
    }

    /// The method that it was made with.
    pub fn method(&self) -> MethodId
        ensures { result ≡ self.now.method }
    {
        self.method
    }

    /// What the code of expressions reads of it.
    pub fn names(&self) -> Names<'_>
        ensures { known_by result ≡ known_in self.now }
    {
        let variables: &[Var] = &self.variables;
        let fields = self.checked.table().fields(self.method.class);
        Names { variables, fields }
    }

    /// The word of the frame that the next local gets; the words from it on are free.
    pub fn free(&self) -> u32
        ensures value { result ≡ free_words_of (known_in self.now) }
        ensures small { result ≤ 64 }
    {
        let names = self.names();
        free_word(&names)
    }

    /// The type of what a name means; nothing if it means nothing.
    pub fn kind(&self, name: &Text) -> Option<&VarType>
        ensures { option_map (λ kind. kind.now) result ≡ kind_named (known_in self.now) name.now }
    {
        let names = self.names();
        kind_by(&names, name)
    }

    /// The storage slot of what a name denotes; nothing if it denotes nothing.
    pub fn spot(&self, name: &Text) -> Option<Spot>
        ensures value { result ≡ spot_named (known_in self.now) name.now }
        ensures small { IfSome result (λ spot. offset_of spot < 2 ^ 32) }
    {
        let names = self.names();
        spot_by(&names, name)
    }
}
