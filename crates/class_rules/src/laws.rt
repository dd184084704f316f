// Laws of the definitions, each the contract of a function.
ghost use Rattle.class_rules.specs.Laws.{FirstIsFirst, ChainEndsWithin, TableReadsClasses};
ghost use Rattle.class_rules.specs.Inheritance.{FieldsComeFirst, InheritanceGoesThrough, CallsFindMethods};

/// What the first refusal of a list names is refused, and nothing before it.
pub fn first_is_first()
    ensures { FirstIsFirst }
{}

/// A chain of parents that ends at all ends within as many steps as there are classes.
pub fn chain_ends_within()
    ensures { ChainEndsWithin }
{}

/// The functions on a program's table return only what the list of its classes says.
pub fn table_reads_classes()
    ensures { TableReadsClasses }
{}

/// The fields of a class come first in those of every class below it.
pub fn fields_come_first()
    ensures { FieldsComeFirst }
{}

/// What a class is or inherits from goes through the classes between.
pub fn inheritance_goes_through()
    ensures { InheritanceGoesThrough }
{}

/// In an accepted program a checked call finds a checked method for each object, with parameters of
/// the same types.
pub fn calls_find_methods()
    ensures { CallsFindMethods }
{}
