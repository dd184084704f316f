// Checks a text: the lexer, the parser, the class table and the types, in this order.
ghost use Rattle.std.specs.Prelude.{◌≡◌, ◌≤◌, length, IfOk, IfErr, OnOk, Ok, Err};
ghost use Rattle.token_limits.specs.rpp_tree.declared.limits.TheConstants.{MOST_BYTES};
ghost use Rattle.token_limits.specs.rpp_tree.Views.{source_of};
ghost use Rattle.reversible_types.specs.class_rules.Table.{table_of, HasClassTable};
ghost use Rattle.token_limits.specs.roopl_lexer.Readable.{AreReadable};
ghost use Rattle.token_limits.specs.roopl_lexer.Tokens.{IsCutting};
ghost use Rattle.roopl_judge.specs.Errors.{IfRefused};
ghost use Rattle.roopl_judge.specs.Judged.{IsTree, IsJudged};

use crate::error::{SourceError, of_class_table, of_lexer, of_parser, of_types};
use reversible_types::{Checked, ClassTable, check};
use std::alloc::Global;
use token_limits::tree::Program;
use token_limits::{Token, lex, parse};

/// The program of a text, or its first refusal.
pub fn judge(alloc: Global, text: &[u8]) -> Result<Checked, SourceError>
    requires { length text.now ≤ MOST_BYTES }
    ensures accepted { IfOk result (λ checked. IsJudged text.now (Ok (source_of checked))) }
    ensures refused { IfErr result (IfRefused (λ refusal. IsJudged text.now (Err refusal))) }
{
    let tokens = cut(alloc, text)?;
    let program = tree(alloc, text, &tokens)?;
    let table = table(alloc, text, &program)?;
    types(text, program, table)
}

// The tokens of a text.
fn cut(alloc: Global, text: &[u8]) -> Result<Vec<Token>, SourceError>
    requires { length text.now ≤ MOST_BYTES }
    ensures tokens { IfOk result (λ tokens. IsCutting text.now tokens.items) }
    ensures readable { IfOk result (λ tokens. AreReadable tokens.items) }
    ensures refused { IfErr result (IfRefused (λ refusal. IsJudged text.now (Err refusal))) }
{
    match lex(alloc, text) {
        Ok(tokens) => Ok(tokens),
        Err(error) => Err(of_lexer(error)),
    }
}

// The syntax tree of a text with these tokens.
fn tree(alloc: Global, text: &[u8], tokens: &[Token]) -> Result<Program, SourceError>
    requires short { length text.now ≤ MOST_BYTES }
    requires cutting { IsCutting text.now tokens.now }
    requires readable { AreReadable tokens.now }
    ensures tree { IfOk result (λ program. IsTree text.now (source_of program)) }
    ensures refused { IfErr result (IfRefused (λ refusal. IsJudged text.now (Err refusal))) }
{
    match parse(alloc, tokens, text.len() as u32) {
        Ok(program) => Ok(program),
        Err(error) => Err(of_parser(error)),
    }
}

// The class table of a text's syntax tree.
fn table(alloc: Global, text: &[u8], program: &Program) -> Result<ClassTable, SourceError>
    requires short { length text.now ≤ MOST_BYTES }
    requires tree { IsTree text.now (source_of program.now) }
    ensures table { IfOk result (λ table. table ≡ table_of (source_of program.now)) }
    ensures classes { OnOk result (HasClassTable (source_of program.now)) }
    ensures refused { IfErr result (IfRefused (λ refusal. IsJudged text.now (Err refusal))) }
{
    match ClassTable::build(alloc, program, text.len() as u32) {
        Ok(table) => Ok(table),
        Err(error) => Err(of_class_table(error)),
    }
}

// A text's syntax tree with its table, if the types are accepted.
fn types(_text: &[u8], program: Program, table: ClassTable) -> Result<Checked, SourceError>
    requires tree { IsTree _text.now (source_of program) }
    requires table { table ≡ table_of (source_of program) }
    requires classes { HasClassTable (source_of program) }
    ensures accepted { IfOk result (λ checked. IsJudged _text.now (Ok (source_of checked))) }
    ensures refused { IfErr result (IfRefused (λ refusal. IsJudged _text.now (Err refusal))) }
{
    match check(program, table) {
        Ok(checked) => Ok(checked),
        Err(error) => Err(of_types(error)),
    }
}
