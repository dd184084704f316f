// Programs, classes, methods, statements and expressions.
use rpp_words::Text;

/// A name with its place in the source.
#[derive(Drop)]
pub struct Ident {
    /// Where it begins, in bytes from the start of the source.
    pub at: u32,
    /// Its bytes.
    pub text: Text,
}

/// A source text as a tree: the classes that it declares.
#[derive(Drop)]
pub struct Program {
    /// Its classes, in the order of the source.
    pub classes: Vec<Class>,
}

/// What a class declares between its header and the next class.
#[derive(Drop)]
pub struct Class {
    /// Its name.
    pub name: Ident,
    /// The class that it inherits from, if it does.
    pub parent: Option<Ident>,
    /// Its own fields, without inherited ones.
    pub fields: Vec<Var>,
    /// Its own methods.
    pub methods: Vec<Method>,
}

/// A method as its class declares it.
#[derive(Drop)]
pub struct Method {
    /// Its name.
    pub name: Ident,
    /// Its parameters.
    pub params: Vec<Var>,
    /// Its statements.
    pub body: Block,
}

/// A block of statements.
#[derive(Drop)]
#[cycle(code)]
pub struct Block {
    /// The statements, in order.
    pub list: Vec<Stmt>,
}

/// A variable with its type: a field, a parameter or a local.
#[derive(Drop)]
pub struct Var {
    /// Its type.
    pub kind: VarType,
    /// Its name.
    pub name: Ident,
}

/// What a variable can hold: a word, or a reference to an object or an array.
#[derive(Drop)]
pub enum VarType {
    /// A word.
    Int,
    /// A reference to an object of this class or of one that inherits from it.
    Class(Ident),
    /// A reference to an array of words.
    IntArray,
    /// A reference to an array of such references.
    ClassArray(Ident),
}

/// A variable, or an element of an array.
#[derive(Drop)]
#[cycle(values)]
pub struct Place {
    /// The variable.
    pub name: Ident,
    /// The index, if it is an element.
    pub index: Option<Box<Expr>>,
}

/// What has a value and changes nothing.
#[derive(Drop)]
#[cycle(values)]
pub enum Expr {
    /// A literal, with the place of its first byte.
    Number {
        at: u32,
        word: u32,
    },
    /// The word `nil`.
    Nil {
        at: u32,
    },
    /// The value of a place.
    Read(Place),
    /// Two operands, with the place of the operator.
    Binary {
        at: u32,
        op: BinOp,
        left: Box<Expr>,
        right: Box<Expr>,
    },
}

/// An operator between two expressions.
#[derive(Clone, Copy, Debug, PartialEq, Eq)]
pub enum BinOp {
    Add,
    Sub,
    Xor,
    And,
    Or,
    AndAlso,
    OrElse,
    Less,
    Greater,
    AtMost,
    AtLeast,
    Equal,
    NotEqual,
    Mul,
    Div,
    Rem,
}

/// How a place is updated.
#[derive(Clone, Copy, Debug, PartialEq, Eq)]
pub enum UpdateOp {
    Add,
    Sub,
    Xor,
}

/// What a statement makes or deletes.
#[derive(Drop)]
pub enum Made {
    /// An object of this class.
    Object(Ident),
    /// An array of words of this length.
    Ints(Expr),
    /// An array of references to objects of this class, of this length.
    Objects(Ident, Expr),
}

/// A statement. `at` is the place of its first byte in the source.
#[derive(Drop)]
#[cycle(code)]
pub enum Stmt {
    /// `place += value`, or with another operator.
    Update {
        at: u32,
        op: UpdateOp,
        place: Place,
        value: Expr,
    },
    /// `left <=> right`
    Swap {
        at: u32,
        left: Place,
        right: Place,
    },
    /// `if test then yes else no fi after`
    If {
        at: u32,
        test: Expr,
        yes: Block,
        no: Block,
        after: Expr,
    },
    /// `from entry do first loop again until until`
    From {
        at: u32,
        entry: Expr,
        first: Block,
        again: Block,
        until: Expr,
    },
    /// `construct class name body destruct end`
    Construct {
        at: u32,
        class: Ident,
        name: Ident,
        body: Block,
        end: Ident,
    },
    /// `local var = value body delocal end_var = end_value`
    Local {
        at: u32,
        var: Var,
        value: Expr,
        body: Block,
        end_var: Var,
        end_value: Expr,
    },
    /// `new made place`
    New {
        at: u32,
        made: Made,
        place: Place,
    },
    /// `delete made place`
    Delete {
        at: u32,
        made: Made,
        place: Place,
    },
    /// `copy kind source target`
    Copy {
        at: u32,
        kind: VarType,
        source: Place,
        target: Place,
    },
    /// `uncopy kind source target`
    Uncopy {
        at: u32,
        kind: VarType,
        source: Place,
        target: Place,
    },
    /// `call method(args)`, or `uncall` if `back` holds, on a receiver if there is one.
    Call {
        at: u32,
        back: bool,
        receiver: Option<Place>,
        method: Ident,
        args: Vec<Ident>,
    },
    /// `skip`
    Skip {
        at: u32,
    },
}
