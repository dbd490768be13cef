//! The tables of the language: keywords, symbols, built-in procedures, the texts of exceptions, the names of acts and the
//! numbers of operations in a frame.

ghost use Rattle.std.specs.Prelude.{◌≡◌, ◌<◌, IfSome, IsTrue, List, ℕ, length, map, position};
ghost use Rattle.std.specs.Str.{bytes_eq};
ghost use Rattle.std.specs.List.{IsDistinct};
ghost use Rattle.obq_tables.specs.Tables.{acts, are_ordered, builtin_arguments, builtins, exceptions, keywords, nesting_of, symbols, wire_numbers, wire_operations};

use crate::nesting::Nesting;

/// A row of a table, by its key.
pub trait Row {
    ghost key_of: { Self → List ℕ };

    fn key(&self) -> &'static str
        ensures { result.now ≡ key_of self.now };
}

/// A keyword, and what it does to the nesting of a source.
pub struct Keyword {
    pub text: &'static str,
    pub nesting: Nesting,
}

/// A symbol, and what it does to the nesting of a source.
pub struct Symbol {
    pub text: &'static str,
    pub nesting: Nesting,
}

/// A built-in procedure, and how many arguments it takes.
pub struct Builtin {
    pub name: &'static str,
    pub arguments: u32,
}

/// The text of an exception that the machine raises.
pub struct ExceptionText {
    pub text: &'static str,
}

/// The name of an act in a journal.
pub struct ActName {
    pub text: &'static str,
}

/// An operation that a request may ask for, and its number in a frame.
pub struct WireTag {
    pub name: &'static str,
    pub number: u8,
}

impl Row for Keyword {
    ghost key_of = { λ r. r.text.now };

    fn key(&self) -> &'static str {
        self.text
    }
}

impl Row for Symbol {
    ghost key_of = { λ r. r.text.now };

    fn key(&self) -> &'static str {
        self.text
    }
}

impl Row for Builtin {
    ghost key_of = { λ r. r.name.now };

    fn key(&self) -> &'static str {
        self.name
    }
}

impl Row for ExceptionText {
    ghost key_of = { λ r. r.text.now };

    fn key(&self) -> &'static str {
        self.text
    }
}

impl Row for ActName {
    ghost key_of = { λ r. r.text.now };

    fn key(&self) -> &'static str {
        self.text
    }
}

impl Row for WireTag {
    ghost key_of = { λ r. r.name.now };

    fn key(&self) -> &'static str {
        self.name
    }
}

/// The keywords, in byte order.
pub const KEYWORDS: [Keyword; 36] = [
    Keyword {
        text: "alias",
        nesting: Nesting::Opens,
    },
    Keyword {
        text: "andif",
        nesting: Nesting::Stays,
    },
    Keyword {
        text: "clone",
        nesting: Nesting::Stays,
    },
    Keyword {
        text: "do",
        nesting: Nesting::Stays,
    },
    Keyword {
        text: "else",
        nesting: Nesting::Stays,
    },
    Keyword {
        text: "elsif",
        nesting: Nesting::Stays,
    },
    Keyword {
        text: "end",
        nesting: Nesting::Closes,
    },
    Keyword {
        text: "except",
        nesting: Nesting::Stays,
    },
    Keyword {
        text: "exit",
        nesting: Nesting::Stays,
    },
    Keyword {
        text: "false",
        nesting: Nesting::Stays,
    },
    Keyword {
        text: "finally",
        nesting: Nesting::Stays,
    },
    Keyword {
        text: "for",
        nesting: Nesting::Opens,
    },
    Keyword {
        text: "foreach",
        nesting: Nesting::Opens,
    },
    Keyword {
        text: "if",
        nesting: Nesting::Opens,
    },
    Keyword {
        text: "in",
        nesting: Nesting::Stays,
    },
    Keyword {
        text: "is",
        nesting: Nesting::Stays,
    },
    Keyword {
        text: "isnot",
        nesting: Nesting::Stays,
    },
    Keyword {
        text: "let",
        nesting: Nesting::Stays,
    },
    Keyword {
        text: "loop",
        nesting: Nesting::Opens,
    },
    Keyword {
        text: "meth",
        nesting: Nesting::Opens,
    },
    Keyword {
        text: "of",
        nesting: Nesting::Stays,
    },
    Keyword {
        text: "ok",
        nesting: Nesting::Stays,
    },
    Keyword {
        text: "orif",
        nesting: Nesting::Stays,
    },
    Keyword {
        text: "proc",
        nesting: Nesting::Opens,
    },
    Keyword {
        text: "protected",
        nesting: Nesting::Stays,
    },
    Keyword {
        text: "raise",
        nesting: Nesting::Stays,
    },
    Keyword {
        text: "rec",
        nesting: Nesting::Stays,
    },
    Keyword {
        text: "redirect",
        nesting: Nesting::Opens,
    },
    Keyword {
        text: "serialized",
        nesting: Nesting::Stays,
    },
    Keyword {
        text: "then",
        nesting: Nesting::Stays,
    },
    Keyword {
        text: "to",
        nesting: Nesting::Stays,
    },
    Keyword {
        text: "true",
        nesting: Nesting::Stays,
    },
    Keyword {
        text: "try",
        nesting: Nesting::Opens,
    },
    Keyword {
        text: "until",
        nesting: Nesting::Stays,
    },
    Keyword {
        text: "var",
        nesting: Nesting::Stays,
    },
    Keyword {
        text: "watch",
        nesting: Nesting::Opens,
    },
];

/// The symbols, in byte order.
pub const SYMBOLS: [Symbol; 22] = [
    Symbol {
        text: "%",
        nesting: Nesting::Stays,
    },
    Symbol {
        text: "&",
        nesting: Nesting::Stays,
    },
    Symbol {
        text: "(",
        nesting: Nesting::Opens,
    },
    Symbol {
        text: ")",
        nesting: Nesting::Closes,
    },
    Symbol {
        text: "*",
        nesting: Nesting::Stays,
    },
    Symbol {
        text: "+",
        nesting: Nesting::Stays,
    },
    Symbol {
        text: ",",
        nesting: Nesting::Stays,
    },
    Symbol {
        text: "-",
        nesting: Nesting::Stays,
    },
    Symbol {
        text: ".",
        nesting: Nesting::Stays,
    },
    Symbol {
        text: "/",
        nesting: Nesting::Stays,
    },
    Symbol {
        text: ":=",
        nesting: Nesting::Stays,
    },
    Symbol {
        text: ";",
        nesting: Nesting::Stays,
    },
    Symbol {
        text: "<",
        nesting: Nesting::Stays,
    },
    Symbol {
        text: "<=",
        nesting: Nesting::Stays,
    },
    Symbol {
        text: "=",
        nesting: Nesting::Stays,
    },
    Symbol {
        text: "=>",
        nesting: Nesting::Stays,
    },
    Symbol {
        text: ">",
        nesting: Nesting::Stays,
    },
    Symbol {
        text: ">=",
        nesting: Nesting::Stays,
    },
    Symbol {
        text: "[",
        nesting: Nesting::Opens,
    },
    Symbol {
        text: "]",
        nesting: Nesting::Closes,
    },
    Symbol {
        text: "{",
        nesting: Nesting::Opens,
    },
    Symbol {
        text: "}",
        nesting: Nesting::Closes,
    },
];

/// The built-in procedures, in byte order of their names.
pub const BUILTINS: [Builtin; 18] = [
    Builtin {
        name: "array_new",
        arguments: 2,
    },
    Builtin {
        name: "array_size",
        arguments: 1,
    },
    Builtin {
        name: "broadcast",
        arguments: 1,
    },
    Builtin {
        name: "condition",
        arguments: 0,
    },
    Builtin {
        name: "exception",
        arguments: 1,
    },
    Builtin {
        name: "fmt_bool",
        arguments: 1,
    },
    Builtin {
        name: "fmt_int",
        arguments: 1,
    },
    Builtin {
        name: "fork",
        arguments: 1,
    },
    Builtin {
        name: "join",
        arguments: 1,
    },
    Builtin {
        name: "net_export",
        arguments: 3,
    },
    Builtin {
        name: "net_exportEngine",
        arguments: 3,
    },
    Builtin {
        name: "net_import",
        arguments: 2,
    },
    Builtin {
        name: "net_importEngine",
        arguments: 2,
    },
    Builtin {
        name: "not",
        arguments: 1,
    },
    Builtin {
        name: "signal",
        arguments: 1,
    },
    Builtin {
        name: "text_length",
        arguments: 1,
    },
    Builtin {
        name: "text_sub",
        arguments: 3,
    },
    Builtin {
        name: "wr_putText",
        arguments: 2,
    },
];

/// The texts of the exceptions that the machine raises, in byte order.
pub const RAISED: [ExceptionText; 20] = [
    ExceptionText { text: "arity" },
    ExceptionText {
        text: "array_index",
    },
    ExceptionText {
        text: "array_limit",
    },
    ExceptionText { text: "call_limit" },
    ExceptionText {
        text: "closure_limit",
    },
    ExceptionText { text: "compare" },
    ExceptionText {
        text: "exit_outside",
    },
    ExceptionText {
        text: "field_missing",
    },
    ExceptionText {
        text: "field_twice",
    },
    ExceptionText { text: "fork_limit" },
    ExceptionText { text: "int_divide" },
    ExceptionText {
        text: "int_overflow",
    },
    ExceptionText { text: "not_method" },
    ExceptionText {
        text: "not_serialized",
    },
    ExceptionText { text: "not_value" },
    ExceptionText { text: "not_var" },
    ExceptionText { text: "protected" },
    ExceptionText { text: "text_limit" },
    ExceptionText { text: "text_range" },
    ExceptionText { text: "type" },
];

/// The names of acts in a journal, in byte order.
pub const ACTS: [ActName; 24] = [
    ActName { text: "Again" },
    ActName { text: "ArrayGet" },
    ActName { text: "ArraySet" },
    ActName { text: "Broadcast" },
    ActName { text: "Call" },
    ActName { text: "Copy" },
    ActName { text: "End" },
    ActName { text: "Engine" },
    ActName { text: "Export" },
    ActName { text: "Fork" },
    ActName { text: "Get" },
    ActName { text: "GiveUp" },
    ActName { text: "Hop" },
    ActName { text: "Import" },
    ActName { text: "Join" },
    ActName { text: "Leave" },
    ActName { text: "Line" },
    ActName { text: "New" },
    ActName { text: "Put" },
    ActName { text: "Redirect" },
    ActName { text: "Set" },
    ActName { text: "Signal" },
    ActName { text: "VarGet" },
    ActName { text: "VarSet" },
];

/// The operations of requests, in byte order of their names.
pub const WIRE_TAGS: [WireTag; 20] = [
    WireTag {
        name: "Again",
        number: 15,
    },
    WireTag {
        name: "ArrayItem",
        number: 6,
    },
    WireTag {
        name: "ArraySet",
        number: 8,
    },
    WireTag {
        name: "ArraySize",
        number: 7,
    },
    WireTag {
        name: "Broadcast",
        number: 17,
    },
    WireTag {
        name: "Call",
        number: 2,
    },
    WireTag {
        name: "Copy",
        number: 4,
    },
    WireTag {
        name: "Engine",
        number: 20,
    },
    WireTag {
        name: "Export",
        number: 18,
    },
    WireTag {
        name: "Get",
        number: 1,
    },
    WireTag {
        name: "GiveUp",
        number: 14,
    },
    WireTag {
        name: "Import",
        number: 19,
    },
    WireTag {
        name: "Join",
        number: 12,
    },
    WireTag {
        name: "Line",
        number: 13,
    },
    WireTag {
        name: "Put",
        number: 11,
    },
    WireTag {
        name: "Redirect",
        number: 5,
    },
    WireTag {
        name: "Set",
        number: 3,
    },
    WireTag {
        name: "Signal",
        number: 16,
    },
    WireTag {
        name: "VarGet",
        number: 9,
    },
    WireTag {
        name: "VarSet",
        number: 10,
    },
];

fn find_row<R: Row>(rows: &[R], key: &[u8]) -> Option<usize>
    ensures { result ≡ position (λ r. bytes_eq (R.key_of r) key.now) rows.now }
{
    rows.iter().position(|r| r.key().as_bytes() == key)
}

/// The place of the first row with this key.
pub fn find<R: Row>(rows: &[R], key: &[u8]) -> Option<usize>
    ensures first { result ≡ position (λ k. bytes_eq k key.now) (map R.key_of rows.now) }
    ensures within { IfSome result (λ k. k < length rows.now) }
{
    find_row(rows, key)
}

/// The keywords stand in byte order, each once.
pub fn keywords_are_ordered()
    ensures order { IsTrue (are_ordered keywords) }
    ensures once { IsDistinct bytes_eq keywords }
{}

/// The symbols stand in byte order, each once.
pub fn symbols_are_ordered()
    ensures order { IsTrue (are_ordered symbols) }
    ensures once { IsDistinct bytes_eq symbols }
{}

/// The names of the built-in procedures stand in byte order, each once.
pub fn builtins_are_ordered()
    ensures order { IsTrue (are_ordered builtins) }
    ensures once { IsDistinct bytes_eq builtins }
{}

/// The texts of the machine's exceptions stand in byte order, each once.
pub fn exceptions_are_ordered()
    ensures order { IsTrue (are_ordered exceptions) }
    ensures once { IsDistinct bytes_eq exceptions }
{}

/// The names of acts stand in byte order, each once.
pub fn acts_are_ordered()
    ensures order { IsTrue (are_ordered acts) }
    ensures once { IsDistinct bytes_eq acts }
{}

/// The names of the operations of requests stand in byte order, each once.
pub fn wire_operations_are_ordered()
    ensures order { IsTrue (are_ordered wire_operations) }
    ensures once { IsDistinct bytes_eq wire_operations }
{}

/// The table of keywords.
pub fn keyword_rows() -> &'static [Keyword]
    ensures texts { map (λ k. k.text.now) result.now ≡ keywords }
    ensures nesting { map (λ k. k.nesting) result.now ≡ map nesting_of keywords }
{
    &KEYWORDS
}

/// The table of symbols.
pub fn symbol_rows() -> &'static [Symbol]
    ensures texts { map (λ k. k.text.now) result.now ≡ symbols }
    ensures nesting { map (λ k. k.nesting) result.now ≡ map nesting_of symbols }
{
    &SYMBOLS
}

/// The table of built-in procedures.
pub fn builtin_rows() -> &'static [Builtin]
    ensures names { map (λ b. b.name.now) result.now ≡ builtins }
    ensures arguments { map (λ b. b.arguments) result.now ≡ builtin_arguments }
{
    &BUILTINS
}

/// The table of the machine's exceptions.
pub fn exception_rows() -> &'static [ExceptionText]
    ensures { map (λ e. e.text.now) result.now ≡ exceptions }
{
    &RAISED
}

/// The table of the names of acts.
pub fn act_rows() -> &'static [ActName]
    ensures { map (λ a. a.text.now) result.now ≡ acts }
{
    &ACTS
}

/// The table of the operations of requests.
pub fn wire_rows() -> &'static [WireTag]
    ensures names { map (λ w. w.name.now) result.now ≡ wire_operations }
    ensures numbers { map (λ w. w.number) result.now ≡ wire_numbers }
{
    &WIRE_TAGS
}
