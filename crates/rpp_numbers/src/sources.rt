// The limits of sources.
ghost use Rattle.std.specs.Prelude.{◌≡◌};

use command_line::limits::{
    MOST_BYTES, MOST_CLASSES, MOST_FIELDS, MOST_INDEX_DEPTH, MOST_LOCALS, MOST_METHODS,
    MOST_NESTING, MOST_NODES, MOST_NUMBER, MOST_PARAMETERS, MOST_PARENS, MOST_TOKENS,
};

/// The limits of a source.
pub fn source_numbers()
    ensures text { (MOST_BYTES ≡ 1_048_576) × (MOST_TOKENS ≡ 20_000)
        × (MOST_NUMBER ≡ 2_147_483_647) }
    ensures classes { (MOST_CLASSES ≡ 256) × (MOST_FIELDS ≡ 64) × (MOST_METHODS ≡ 256) }
    ensures methods { (MOST_PARAMETERS ≡ 16) × (MOST_LOCALS ≡ 32) × (MOST_NESTING ≡ 100) }
    ensures expressions { (MOST_NODES ≡ 64) × (MOST_PARENS ≡ 100) × (MOST_INDEX_DEPTH ≡ 65) }
{}
