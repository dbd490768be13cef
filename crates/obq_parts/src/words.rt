//! The keywords and symbols that the parser takes as one token.

use crate::steps::Word;
use obq_tables::rows::{
    KW_ALIAS, KW_DO, KW_ELSE, KW_ELSIF, KW_END, KW_EXCEPT, KW_FINALLY, KW_IN, KW_LET, KW_METH,
    KW_OF, KW_PROC, KW_REC, KW_THEN, KW_TO, KW_UNTIL, KW_VAR, SYM_ARROW, SYM_ASSIGN, SYM_CLOSE,
    SYM_CLOSE_BRACE, SYM_CLOSE_BRACKET, SYM_COMMA, SYM_DOT, SYM_EQUALS, SYM_OPEN, SYM_OPEN_BRACKET,
    SYM_SEMICOLON,
};

pub const ALIAS: Word = Word::Keyword(KW_ALIAS);

pub const DO: Word = Word::Keyword(KW_DO);

pub const ELSE: Word = Word::Keyword(KW_ELSE);

pub const ELSIF: Word = Word::Keyword(KW_ELSIF);

pub const END: Word = Word::Keyword(KW_END);

pub const EXCEPT: Word = Word::Keyword(KW_EXCEPT);

pub const FINALLY: Word = Word::Keyword(KW_FINALLY);

pub const IN: Word = Word::Keyword(KW_IN);

pub const LET: Word = Word::Keyword(KW_LET);

pub const METH: Word = Word::Keyword(KW_METH);

pub const OF: Word = Word::Keyword(KW_OF);

pub const PROC: Word = Word::Keyword(KW_PROC);

pub const REC: Word = Word::Keyword(KW_REC);

pub const THEN: Word = Word::Keyword(KW_THEN);

pub const TO: Word = Word::Keyword(KW_TO);

pub const UNTIL: Word = Word::Keyword(KW_UNTIL);

pub const VAR: Word = Word::Keyword(KW_VAR);

pub const OPEN: Word = Word::Symbol(SYM_OPEN);

pub const CLOSE: Word = Word::Symbol(SYM_CLOSE);

pub const COMMA: Word = Word::Symbol(SYM_COMMA);

pub const DOT: Word = Word::Symbol(SYM_DOT);

pub const ASSIGN: Word = Word::Symbol(SYM_ASSIGN);

pub const SEMICOLON: Word = Word::Symbol(SYM_SEMICOLON);

pub const EQUALS: Word = Word::Symbol(SYM_EQUALS);

pub const ARROW: Word = Word::Symbol(SYM_ARROW);

pub const OPEN_BRACKET: Word = Word::Symbol(SYM_OPEN_BRACKET);

pub const CLOSE_BRACKET: Word = Word::Symbol(SYM_CLOSE_BRACKET);

pub const CLOSE_BRACE: Word = Word::Symbol(SYM_CLOSE_BRACE);
