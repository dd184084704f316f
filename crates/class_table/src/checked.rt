// Accepted programs with their tables.
ghost use Rattle.std.specs.Prelude.{◌≡◌};
ghost use Rattle.class_rules.specs.rpp_tree.Views.{source_of};
ghost use Rattle.class_rules.specs.Table.{table_of};
ghost use Rattle.class_rules.specs.Program.{IsAccepted};

use crate::table::ClassTable;
use class_rules::tree::Program;
use std::marker::Model;

/// A program that every rule accepts, with its class table.
#[derive(Drop)]
pub struct Checked {
    program: Program,
    table: ClassTable,
}

impl Model for Checked {
    ghost use Rattle.class_rules.specs.rpp_tree.declared.tree.Program.{Program as Text};
    ghost use Rattle.class_rules.specs.rpp_tree.contracts.tree.Stmt as stmt;
    ghost use Rattle.class_rules.specs.rpp_tree.contracts.tree.Expr as expr;
    ghost use Rattle.std.specs.Coded.{codes};

    ghost Value = { Text };

    ghost coded = { Prim.hlevel (codes, stmt.the_row.coded, expr.the_row.coded) };

    ghost use Rattle.std.specs.Prelude.{◌≡◌};
    ghost use Rattle.class_rules.specs.rpp_tree.Views.{source_of};
    ghost use Rattle.class_rules.specs.Table.{table_of};
    ghost use Rattle.class_rules.specs.Program.{IsAccepted};

    ghost view = { λ c. c.program };

    ghost invariant = { λ c. (c.table ≡ table_of (source_of c.program))
        × IsAccepted (source_of c.program) };
}

impl Checked {
    /// Holds an accepted program with its table.
    pub fn seal(program: Program, table: ClassTable) -> Checked
        requires table { table ≡ table_of (source_of program) }
        requires accepted { IsAccepted (source_of program) }
        ensures { result ≡ program }
    {
        Checked { program, table }
    }

    /// The program that was accepted.
    pub fn program(&self) -> &Program
        ensures program { result.now ≡ self.now }
        ensures accepted { IsAccepted (source_of self.now) }
    {
        &self.program
    }

    /// The table of the program.
    pub fn table(&self) -> &ClassTable
        ensures table { result.now ≡ table_of (source_of self.now) }
        ensures accepted { IsAccepted (source_of self.now) }
    {
        &self.table
    }
}
