//! The rows of the keywords and of the symbols by name. A token of a keyword or symbol has such a row.

pub const KW_ALIAS: u32 = 0;

pub const KW_ANDIF: u32 = 1;

pub const KW_CLONE: u32 = 2;

pub const KW_DO: u32 = 3;

pub const KW_ELSE: u32 = 4;

pub const KW_ELSIF: u32 = 5;

pub const KW_END: u32 = 6;

pub const KW_EXCEPT: u32 = 7;

pub const KW_EXIT: u32 = 8;

pub const KW_FALSE: u32 = 9;

pub const KW_FINALLY: u32 = 10;

pub const KW_FOR: u32 = 11;

pub const KW_FOREACH: u32 = 12;

pub const KW_IF: u32 = 13;

pub const KW_IN: u32 = 14;

pub const KW_IS: u32 = 15;

pub const KW_ISNOT: u32 = 16;

pub const KW_LET: u32 = 17;

pub const KW_LOOP: u32 = 18;

pub const KW_METH: u32 = 19;

pub const KW_OF: u32 = 20;

pub const KW_OK: u32 = 21;

pub const KW_ORIF: u32 = 22;

pub const KW_PROC: u32 = 23;

pub const KW_PROTECTED: u32 = 24;

pub const KW_RAISE: u32 = 25;

pub const KW_REC: u32 = 26;

pub const KW_REDIRECT: u32 = 27;

pub const KW_SERIALIZED: u32 = 28;

pub const KW_THEN: u32 = 29;

pub const KW_TO: u32 = 30;

pub const KW_TRUE: u32 = 31;

pub const KW_TRY: u32 = 32;

pub const KW_UNTIL: u32 = 33;

pub const KW_VAR: u32 = 34;

pub const KW_WATCH: u32 = 35;

/// `%`
pub const SYM_PERCENT: u32 = 0;

/// `&`
pub const SYM_AMPERSAND: u32 = 1;

/// `(`
pub const SYM_OPEN: u32 = 2;

/// `)`
pub const SYM_CLOSE: u32 = 3;

/// `*`
pub const SYM_STAR: u32 = 4;

/// `+`
pub const SYM_PLUS: u32 = 5;

/// `,`
pub const SYM_COMMA: u32 = 6;

/// `-`
pub const SYM_MINUS: u32 = 7;

/// `.`
pub const SYM_DOT: u32 = 8;

/// `/`
pub const SYM_SLASH: u32 = 9;

/// `:=`
pub const SYM_ASSIGN: u32 = 10;

/// `;`
pub const SYM_SEMICOLON: u32 = 11;

/// `<`
pub const SYM_LESS: u32 = 12;

/// `<=`
pub const SYM_LESS_EQUAL: u32 = 13;

/// `=`
pub const SYM_EQUALS: u32 = 14;

/// `=>`
pub const SYM_ARROW: u32 = 15;

/// `>`
pub const SYM_GREATER: u32 = 16;

/// `>=`
pub const SYM_GREATER_EQUAL: u32 = 17;

/// `[`
pub const SYM_OPEN_BRACKET: u32 = 18;

/// `]`
pub const SYM_CLOSE_BRACKET: u32 = 19;

/// `{`
pub const SYM_OPEN_BRACE: u32 = 20;

/// `}`
pub const SYM_CLOSE_BRACE: u32 = 21;
