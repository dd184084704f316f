// What variables, fields and elements hold.
ghost use Rattle.std.specs.Prelude.{◌≡◌};
ghost use Rattle.meaning_machine.specs.roopl_semantics.Store.{is_zero, is_nil, cleared, number_of, same_value};
ghost use Rattle.source_store.specs.ValueView.{value_of};

/// What a variable, a field or an element holds.
#[derive(Clone, Copy, Debug, PartialEq, Eq)]
pub enum Value {
    /// A word.
    Word(u32),
    /// No reference.
    Nil,
    /// A reference, by the name of an object or array.
    Name(u32),
}

impl Value {
    /// The value as a number: a word, a name, or 0 for nil.
    pub fn number(self) -> u32
        ensures { result ≡ number_of (value_of self) }
    {
        match self {
            Value::Word(word) => word,
            Value::Nil => 0,
            Value::Name(name) => name,
        }
    }

    /// Whether it is 0 or nil.
    pub fn is_zero(self) -> bool
        ensures { result ≡ is_zero (value_of self) }
    {
        match self {
            Value::Word(word) => word == 0,
            Value::Nil => true,
            Value::Name(_) => false,
        }
    }

    /// Whether it is nil.
    pub fn is_nil(self) -> bool
        ensures { result ≡ is_nil (value_of self) }
    {
        match self {
            Value::Nil => true,
            Value::Word(_) => false,
            Value::Name(_) => false,
        }
    }

    /// What is left if it moves away: 0 or nil.
    pub fn cleared(self) -> Value
        ensures { value_of result ≡ cleared (value_of self) }
    {
        match self {
            Value::Word(_) => Value::Word(0),
            Value::Nil => Value::Nil,
            Value::Name(_) => Value::Nil,
        }
    }

    /// Whether it is the same as another.
    pub fn same(self, other: Value) -> bool
        ensures { result ≡ same_value (value_of self) (value_of other) }
    {
        match (self, other) {
            (Value::Word(a), Value::Word(b)) => a == b,
            (Value::Nil, Value::Nil) => true,
            (Value::Name(a), Value::Name(b)) => a == b,
            _ => false,
        }
    }
}
