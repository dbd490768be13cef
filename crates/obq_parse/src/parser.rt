//! The parser. Each function reads one part of the grammar from the front of its tokens, by the next
//! token alone, and answers what is left behind the part.

ghost use Rattle.std.specs.Prelude.{◌≡◌, ◌∷◌, ◌<◌, ◌≤◌, IfOk, length, suc};
ghost use Rattle.obq_base.specs.declared.tokens.TokenKind.TheVariants as kind;
ghost use Rattle.obq_model.specs.Grammar as g;
ghost use Rattle.obq_model.specs.Nodes.{next, token};
ghost use Rattle.obq_model.specs.Words as w;
ghost use Rattle.obq_grammar.specs.Follow.{Anything, EndsArgs, EndsBlock, EndsElsifs, EndsExpr, EndsGuards, EndsItem, EndsLevel, EndsNames, EndsSuffixed, No, is_word};
ghost use Rattle.obq_parts.specs.Closed.{ReadsBody, ReadsUntil};
ghost use Rattle.obq_parts.specs.Reads.{Reads, kind_of};
ghost use Rattle.obq_parse.specs.Reading.{ReadsChain, ReadsRest};

use obq_base::{
    Arm, Bind, Block, Expr, Field, FieldExpr, Item, Link, Name, Proc, RecBind, Suffix, Token,
};
use obq_parts::words::{
    ALIAS, ARROW, ASSIGN, CLOSE, CLOSE_BRACE, CLOSE_BRACKET, COMMA, DO, DOT, ELSE, ELSIF, END,
    EQUALS, EXCEPT, FINALLY, IN, LET, METH, OF, OPEN, OPEN_BRACKET, REC, THEN, TO, UNTIL, VAR,
};
use obq_parts::{
    Chain, ObjectHead, Onward, Opening, Refused, Target, Word, alias_node, application, array_node,
    assignment, begins_suffix, behind_item, bind_node, chained, clone_node, ended, ends_block,
    ends_expr, field_assignment, field_node, finally_node, for_node, foreach_node, front, if_node,
    index_node, invocation, loop_node, method_node, object_node, operand_level, place_of,
    procedure_node, raise_node, read_closed_names, read_literal, read_object_head, read_parameters,
    rec_bind_node, redirect_node, selection, suffixed, take_name, take_opening, take_operator,
    take_procedure, take_word, target_of, try_node, value_node, watch_node, with_arm,
};
use sqlite_items::Items;
use std::alloc::Global;

type Read<'a, T> = Result<(T, &'a [Token]), Refused<'a>>;

// What was read. Values that are held on a refusal go by a call, since a drop in place has an arm
// for each kind of node.
macro_rules! read {
    ($read:expr $(; $held:ident)*) => {
        match $read {
            Ok(found) => found,
            Err(refused) => {
                $(drop($held);)*
                return Err(refused);
            }
        }
    };
}

macro_rules! have {
    ($made:expr $(; $held:ident)*) => {
        match $made {
            Ok(made) => made,
            Err(_) => {
                $(drop($held);)*
                return Err(Refused::NoMemory);
            }
        }
    };
}

// The tokens behind a word.
macro_rules! skip {
    ($word:expr, $tokens:expr $(; $held:ident)*) => {
        match take_word($word, $tokens) {
            Some((_, rest)) => rest,
            None => {
                $(drop($held);)*
                return Err(Refused::Syntax($tokens));
            }
        }
    };
}

// A name, its place and the tokens behind it.
macro_rules! name {
    ($tokens:expr) => {
        match take_name($tokens) {
            Some(found) => found,
            None => return Err(Refused::Syntax($tokens)),
        }
    };
}

/// An expression, and the tokens behind the word that closes it.
#[cycle(parse)]
fn read_until<'a>(alloc: Global, mark: Word, tokens: &'a [Token]) -> Read<'a, Expr>
    ensures read { ReadsUntil (kind_of mark) tokens.now result }
    ensures shorter { IfOk result (λ p. length p.1.now < length tokens.now) }
{
    let (value, rest) = read!(read_expr(alloc, tokens));
    let behind = skip!(mark, rest; value);
    Ok((value, behind))
}

/// A block, and the tokens behind its `end`.
#[cycle(parse)]
fn read_body<'a>(alloc: Global, tokens: &'a [Token]) -> Read<'a, Block>
    ensures read { ReadsBody tokens.now result }
    ensures shorter { IfOk result (λ p. length p.1.now < length tokens.now) }
{
    let (body, rest) = read!(read_block(alloc, tokens));
    let behind = skip!(END, rest);
    Ok((body, behind))
}

#[cycle(parse)]
pub fn read_block<'a>(alloc: Global, tokens: &'a [Token]) -> Read<'a, Block>
    ensures read { Reads g.IsBlock EndsBlock tokens.now result }
    ensures shorter { IfOk result (λ p. length p.1.now ≤ length tokens.now) }
{
    let place = place_of(tokens);
    if ends_block(tokens) {
        let items = Items::new(alloc);
        return Ok((Block { items, place }, tokens));
    }
    let (first, rest) = read!(read_item(alloc, tokens));
    let (more, rest) = read!(read_more(alloc, rest); first);
    let items = have!(front(alloc, first, more));
    Ok((Block { items, place }, rest))
}

/// The items behind the first one.
#[cycle(parse)]
fn read_more<'a>(alloc: Global, tokens: &'a [Token]) -> Read<'a, Items<Item>>
    requires { EndsItem (next tokens.now) }
    ensures read { Reads g.IsMore EndsBlock tokens.now result }
    ensures shorter { IfOk result (λ p. length p.1.now ≤ length tokens.now) }
{
    let mut items = Items::new(alloc);
    let mut rest = tokens;
    loop {
        match behind_item(rest) {
            Onward::Item(behind) => {
                let (item, after) = read!(read_item(alloc, behind));
                have!(items.push(item));
                rest = after;
            }
            Onward::End(behind) => return Ok((items, behind)),
        }
    }
}

#[cycle(parse)]
fn read_item<'a>(alloc: Global, tokens: &'a [Token]) -> Read<'a, Item>
    ensures read { Reads g.IsItem EndsItem tokens.now result }
    ensures shorter { IfOk result (λ p. length p.1.now < length tokens.now) }
{
    if let Some((place, rest)) = take_word(LET, tokens) {
        return read_let(alloc, place, rest);
    }
    if let Some((place, rest)) = take_word(VAR, tokens) {
        let (binds, rest) = read!(ended(read_binds(alloc, rest)));
        return Ok((Item::Var { binds, place }, rest));
    }
    read_other(alloc, tokens)
}

/// Behind the `let` at `place`.
#[cycle(parse)]
fn read_let<'a>(alloc: Global, place: u32, tokens: &'a [Token]) -> Read<'a, Item>
    ensures read { Reads g.IsItem EndsItem (token w.kw_let place ∷ tokens.now) result }
    ensures shorter { IfOk result (λ p. length p.1.now < length tokens.now) }
{
    if let Some((_, rest)) = take_word(REC, tokens) {
        let (binds, rest) = read!(ended(read_rec_binds(alloc, rest)));
        return Ok((Item::LetRec { binds, place }, rest));
    }
    let (binds, rest) = read!(ended(read_binds(alloc, tokens)));
    Ok((Item::Let { binds, place }, rest))
}

#[cycle(parse)]
fn read_binds<'a>(alloc: Global, tokens: &'a [Token]) -> Read<'a, Items<Bind>>
    ensures read { Reads g.IsBinds EndsArgs tokens.now result }
    ensures shorter { IfOk result (λ p. length p.1.now < length tokens.now) }
{
    let mut items = Items::new(alloc);
    let mut rest = tokens;
    loop {
        let (item, after) = read!(read_bind(alloc, rest));
        have!(items.push(item));
        match take_word(COMMA, after) {
            Some((_, behind)) => rest = behind,
            None => return Ok((items, after)),
        }
    }
}

#[cycle(parse)]
fn read_bind<'a>(alloc: Global, tokens: &'a [Token]) -> Read<'a, Bind>
    ensures read { Reads g.IsBind EndsExpr tokens.now result }
    ensures shorter { IfOk result (λ p. length p.1.now < length tokens.now) }
{
    let (name, place, rest) = name!(tokens);
    let rest = skip!(EQUALS, rest);
    let (value, rest) = read!(read_expr(alloc, rest));
    Ok((have!(bind_node(alloc, name, value, place)), rest))
}

#[cycle(parse)]
fn read_rec_binds<'a>(alloc: Global, tokens: &'a [Token]) -> Read<'a, Items<RecBind>>
    ensures read { Reads g.IsRecBinds EndsNames tokens.now result }
    ensures shorter { IfOk result (λ p. length p.1.now < length tokens.now) }
{
    let mut items = Items::new(alloc);
    let mut rest = tokens;
    loop {
        let (item, after) = read!(read_rec_bind(alloc, rest));
        have!(items.push(item));
        match take_word(COMMA, after) {
            Some((_, behind)) => rest = behind,
            None => return Ok((items, after)),
        }
    }
}

#[cycle(parse)]
fn read_rec_bind<'a>(alloc: Global, tokens: &'a [Token]) -> Read<'a, RecBind>
    ensures read { Reads g.IsRecBind Anything tokens.now result }
    ensures shorter { IfOk result (λ p. length p.1.now < length tokens.now) }
{
    let (name, place, rest) = name!(tokens);
    let rest = skip!(EQUALS, rest);
    let (procedure, rest) = read!(read_proc(alloc, rest));
    Ok((have!(rec_bind_node(alloc, name, procedure, place)), rest))
}

/// An item that is an assignment or an expression.
#[cycle(parse)]
fn read_other<'a>(alloc: Global, tokens: &'a [Token]) -> Read<'a, Item>
    requires no_let { No (is_word w.kw_let (next tokens.now)) }
    requires no_var { No (is_word w.kw_var (next tokens.now)) }
    ensures read { Reads g.IsItem EndsItem tokens.now result }
    ensures shorter { IfOk result (λ p. length p.1.now < length tokens.now) }
{
    let place = place_of(tokens);
    let (chain, rest) = read!(read_chain(alloc, tokens));
    let Some((_, behind)) = take_word(ASSIGN, rest) else {
        let first = have!(suffixed(alloc, chain.head, chain.suffixes));
        let (value, rest) = read!(ended(read_rest(alloc, 0, first, rest)));
        return Ok((Item::Plain(value), rest));
    };
    match have!(target_of(alloc, tokens, chain)) {
        Target::Field(target) => {
            let (body, rest) = read!(ended(read_field_body(alloc, behind)); target);
            Ok((have!(field_assignment(alloc, target, body, place)), rest))
        }
        Target::Value(target) => {
            let (value, rest) = read!(ended(read_expr(alloc, behind)); target);
            Ok((have!(assignment(alloc, target, value, place)), rest))
        }
        Target::Fixed => Err(Refused::Syntax(rest)),
    }
}

#[cycle(parse)]
fn read_field_body<'a>(alloc: Global, tokens: &'a [Token]) -> Read<'a, FieldExpr>
    ensures read { Reads g.IsFieldBody EndsExpr tokens.now result }
    ensures shorter { IfOk result (λ p. length p.1.now < length tokens.now) }
{
    if let Some((place, rest)) = take_word(METH, tokens) {
        return read_method(alloc, place, rest);
    }
    if let Some((place, rest)) = take_word(ALIAS, tokens) {
        return read_alias(alloc, place, rest);
    }
    let (value, rest) = read!(read_expr(alloc, tokens));
    Ok((value_node(value), rest))
}

/// Behind the `meth` at `place`.
#[cycle(parse)]
fn read_method<'a>(alloc: Global, place: u32, tokens: &'a [Token]) -> Read<'a, FieldExpr>
    ensures read { Reads g.IsFieldBody EndsExpr (token w.kw_meth place ∷ tokens.now) result }
    ensures shorter { IfOk result (λ p. length p.1.now < length tokens.now) }
{
    let rest = skip!(OPEN, tokens);
    let (parameters, rest) = read!(read_closed_names(alloc, rest));
    let (body, rest) = read!(read_body(alloc, rest));
    if !ends_expr(rest) {
        return Err(Refused::Syntax(rest));
    }
    let method = Proc {
        parameters,
        body,
        place,
    };
    Ok((method_node(method), rest))
}

/// Behind the `alias` at `place`.
#[cycle(parse)]
fn read_alias<'a>(alloc: Global, place: u32, tokens: &'a [Token]) -> Read<'a, FieldExpr>
    ensures read { Reads g.IsFieldBody EndsExpr (token w.kw_alias place ∷ tokens.now) result }
    ensures shorter { IfOk result (λ p. length p.1.now < length tokens.now) }
{
    let (name, _, rest) = name!(tokens);
    let rest = skip!(OF, rest);
    let (target, rest) = read!(read_until(alloc, END, rest));
    if !ends_expr(rest) {
        drop(target);
        return Err(Refused::Syntax(rest));
    }
    Ok((have!(alias_node(alloc, name, target, place)), rest))
}

#[cycle(parse)]
fn read_proc<'a>(alloc: Global, tokens: &'a [Token]) -> Read<'a, Proc>
    ensures read { Reads g.IsProc Anything tokens.now result }
    ensures shorter { IfOk result (λ p. length p.1.now < length tokens.now) }
{
    let Some((place, rest)) = take_procedure(tokens) else {
        return Err(Refused::Syntax(tokens));
    };
    let rest = skip!(OPEN, rest);
    let (parameters, rest) = read!(read_parameters(alloc, rest));
    let (body, rest) = read!(read_body(alloc, rest));
    let procedure = Proc {
        parameters,
        body,
        place,
    };
    Ok((procedure, rest))
}

#[cycle(parse)]
fn read_expr<'a>(alloc: Global, tokens: &'a [Token]) -> Read<'a, Expr>
    ensures read { Reads g.IsExpr EndsExpr tokens.now result }
    ensures shorter { IfOk result (λ p. length p.1.now < length tokens.now) }
{
    read_level(alloc, 5, tokens)
}

/// An operand of a level: 0 is a chain of suffixes, 5 an expression.
#[cycle(parse)]
fn read_level<'a>(alloc: Global, level: u32, tokens: &'a [Token]) -> Read<'a, Expr>
    requires { level ≤ 5 }
    ensures read { Reads (g.IsLevel level) (EndsLevel level) tokens.now result }
    ensures shorter { IfOk result (λ p. length p.1.now < length tokens.now) }
{
    if level == 0 {
        let (chain, rest) = read!(read_chain(alloc, tokens));
        let operand = have!(suffixed(alloc, chain.head, chain.suffixes));
        return Ok((operand, rest));
    }
    let (first, rest) = read!(read_level(alloc, level - 1, tokens));
    let (links, rest) = read!(read_links(alloc, level - 1, rest); first);
    Ok((have!(chained(alloc, first, links)), rest))
}

/// The operators of a level and their operands.
#[cycle(parse)]
fn read_links<'a>(alloc: Global, level: u32, tokens: &'a [Token]) -> Read<'a, Items<Link>>
    requires small { level < 5 }
    requires ends { EndsLevel level (next tokens.now) }
    ensures read { Reads (g.IsLinks level) (EndsLevel (suc level)) tokens.now result }
    ensures shorter { IfOk result (λ p. length p.1.now ≤ length tokens.now) }
{
    let mut links = Items::new(alloc);
    let mut rest = tokens;
    while let Some((operator, place, behind)) = take_operator(level, rest) {
        let (operand, after) = read!(read_level(alloc, operand_level(level), behind));
        let link = Link {
            operator,
            operand,
            place,
        };
        have!(links.push(link));
        rest = after;
    }
    Ok((links, rest))
}

/// The expression that goes on behind its first operand of a level.
#[cycle(parse)]
fn read_rest<'a>(alloc: Global, level: u32, first: Expr, tokens: &'a [Token]) -> Read<'a, Expr>
    requires small { level ≤ 5 }
    requires ends { EndsLevel level (next tokens.now) }
    ensures read { ReadsRest level first tokens.now result }
    ensures shorter { IfOk result (λ p. length p.1.now ≤ length tokens.now) }
{
    if level == 5 {
        return Ok((first, tokens));
    }
    let (links, rest) = read!(read_links(alloc, level, tokens); first);
    let first = have!(chained(alloc, first, links));
    read_rest(alloc, level + 1, first, rest)
}

#[cycle(parse)]
fn read_chain<'a>(alloc: Global, tokens: &'a [Token]) -> Read<'a, Chain>
    ensures read { ReadsChain tokens.now result }
    ensures shorter { IfOk result (λ p. length p.1.now < length tokens.now) }
{
    let (head, rest) = read!(read_prim(alloc, tokens));
    let (suffixes, rest) = read!(read_suffixes(alloc, rest); head);
    Ok((Chain { head, suffixes }, rest))
}

#[cycle(parse)]
fn read_suffixes<'a>(alloc: Global, tokens: &'a [Token]) -> Read<'a, Items<Suffix>>
    ensures read { Reads g.IsSuffixes EndsSuffixed tokens.now result }
    ensures shorter { IfOk result (λ p. length p.1.now ≤ length tokens.now) }
{
    let mut suffixes = Items::new(alloc);
    let mut rest = tokens;
    while begins_suffix(rest) {
        let (suffix, after) = read!(read_suffix(alloc, rest));
        have!(suffixes.push(suffix));
        rest = after;
    }
    Ok((suffixes, rest))
}

#[cycle(parse)]
fn read_suffix<'a>(alloc: Global, tokens: &'a [Token]) -> Read<'a, Suffix>
    ensures read { Reads g.IsSuffix Anything tokens.now result }
    ensures shorter { IfOk result (λ p. length p.1.now < length tokens.now) }
{
    if let Some((place, rest)) = take_word(OPEN, tokens) {
        let (arguments, rest) = read!(read_call(alloc, rest));
        return Ok((application(arguments, place), rest));
    }
    if let Some((place, rest)) = take_word(DOT, tokens) {
        let (name, _, rest) = name!(rest);
        return read_dotted(alloc, name, place, rest);
    }
    let Some((place, rest)) = take_word(OPEN_BRACKET, tokens) else {
        return Err(Refused::Syntax(tokens));
    };
    let (index, rest) = read!(read_until(alloc, CLOSE_BRACKET, rest));
    Ok((index_node(index, place), rest))
}

/// Behind the `.` at `place` and the name: a selection or an invocation.
#[cycle(parse)]
fn read_dotted<'a>(
    alloc: Global,
    name: &'a Name,
    place: u32,
    tokens: &'a [Token],
) -> Read<'a, Suffix>
    ensures read { Reads (g.IsDotted name.now place) Anything tokens.now result }
    ensures shorter { IfOk result (λ p. length p.1.now ≤ length tokens.now) }
{
    let Some((_, rest)) = take_word(OPEN, tokens) else {
        return Ok((have!(selection(alloc, name, place)), tokens));
    };
    let (arguments, rest) = read!(read_call(alloc, rest));
    Ok((have!(invocation(alloc, name, arguments, place)), rest))
}

#[cycle(parse)]
fn read_call<'a>(alloc: Global, tokens: &'a [Token]) -> Read<'a, Items<Expr>>
    ensures read { Reads g.IsCall Anything tokens.now result }
    ensures shorter { IfOk result (λ p. length p.1.now < length tokens.now) }
{
    if let Some((_, rest)) = take_word(CLOSE, tokens) {
        return Ok((Items::new(alloc), rest));
    }
    let (values, rest) = read!(read_args(alloc, tokens));
    let rest = skip!(CLOSE, rest);
    Ok((values, rest))
}

#[cycle(parse)]
fn read_array<'a>(alloc: Global, tokens: &'a [Token]) -> Read<'a, Items<Expr>>
    ensures read { Reads g.IsArray Anything tokens.now result }
    ensures shorter { IfOk result (λ p. length p.1.now < length tokens.now) }
{
    if let Some((_, rest)) = take_word(CLOSE_BRACKET, tokens) {
        return Ok((Items::new(alloc), rest));
    }
    let (values, rest) = read!(read_args(alloc, tokens));
    let rest = skip!(CLOSE_BRACKET, rest);
    Ok((values, rest))
}

#[cycle(parse)]
fn read_args<'a>(alloc: Global, tokens: &'a [Token]) -> Read<'a, Items<Expr>>
    ensures read { Reads g.IsArgs EndsArgs tokens.now result }
    ensures shorter { IfOk result (λ p. length p.1.now < length tokens.now) }
{
    let mut items = Items::new(alloc);
    let mut rest = tokens;
    loop {
        let (item, after) = read!(read_expr(alloc, rest));
        have!(items.push(item));
        match take_word(COMMA, after) {
            Some((_, behind)) => rest = behind,
            None => return Ok((items, after)),
        }
    }
}

#[cycle(parse)]
fn read_prim<'a>(alloc: Global, tokens: &'a [Token]) -> Read<'a, Expr>
    ensures read { Reads g.IsPrim Anything tokens.now result }
    ensures shorter { IfOk result (λ p. length p.1.now < length tokens.now) }
{
    let Some((opening, place, rest)) = take_opening(tokens) else {
        return read_literal(alloc, tokens);
    };
    match opening {
        Opening::Procedure => read_procedure(alloc, tokens),
        Opening::Paren => read_paren(alloc, place, rest),
        Opening::Clone => read_clone(alloc, place, rest),
        Opening::For => read_for(alloc, place, rest),
        Opening::Foreach => read_foreach(alloc, place, rest),
        Opening::If => read_if(alloc, place, rest),
        Opening::Loop => read_loop(alloc, place, rest),
        Opening::Raise => read_raise(alloc, place, rest),
        Opening::Redirect => read_redirect(alloc, place, rest),
        Opening::Try => read_try(alloc, place, rest),
        Opening::Watch => read_watch(alloc, place, rest),
        Opening::Bracket => read_array_at(alloc, place, rest),
        Opening::Brace => read_object(alloc, place, rest),
    }
}

/// A procedure as an expression.
#[cycle(parse)]
fn read_procedure<'a>(alloc: Global, tokens: &'a [Token]) -> Read<'a, Expr>
    requires { next tokens.now ≡ w.kw_proc }
    ensures read { Reads g.IsPrim Anything tokens.now result }
    ensures shorter { IfOk result (λ p. length p.1.now < length tokens.now) }
{
    let (procedure, rest) = read!(read_proc(alloc, tokens));
    Ok((have!(procedure_node(alloc, procedure)), rest))
}

/// Behind the `(` at `place`.
#[cycle(parse)]
fn read_paren<'a>(alloc: Global, place: u32, tokens: &'a [Token]) -> Read<'a, Expr>
    ensures read { Reads g.IsPrim Anything (token w.sym_open place ∷ tokens.now) result }
    ensures shorter { IfOk result (λ p. length p.1.now < length tokens.now) }
{
    read_until(alloc, CLOSE, tokens)
}

/// Behind the `[` at `place`.
#[cycle(parse)]
fn read_array_at<'a>(alloc: Global, place: u32, tokens: &'a [Token]) -> Read<'a, Expr>
    ensures read { Reads g.IsPrim Anything (token w.sym_open_bracket place ∷ tokens.now) result }
    ensures shorter { IfOk result (λ p. length p.1.now < length tokens.now) }
{
    let (items, rest) = read!(read_array(alloc, tokens));
    Ok((array_node(items, place), rest))
}

/// Behind the `{` at `place`.
#[cycle(parse)]
fn read_object<'a>(alloc: Global, place: u32, tokens: &'a [Token]) -> Read<'a, Expr>
    ensures read { Reads g.IsPrim Anything (token w.sym_open_brace place ∷ tokens.now) result }
    ensures shorter { IfOk result (λ p. length p.1.now < length tokens.now) }
{
    match read_object_head(tokens) {
        ObjectHead::Closed(flags, rest) => Ok((object_node(flags, Items::new(alloc), place), rest)),
        ObjectHead::Fields(flags, rest) => {
            let (fields, rest) = read!(read_fields(alloc, rest));
            let rest = skip!(CLOSE_BRACE, rest);
            Ok((object_node(flags, fields, place), rest))
        }
        ObjectHead::Fault(rest) => Err(Refused::Syntax(rest)),
    }
}

#[cycle(parse)]
fn read_fields<'a>(alloc: Global, tokens: &'a [Token]) -> Read<'a, Items<Field>>
    ensures read { Reads g.IsFields EndsArgs tokens.now result }
    ensures shorter { IfOk result (λ p. length p.1.now < length tokens.now) }
{
    let mut items = Items::new(alloc);
    let mut rest = tokens;
    loop {
        let (item, after) = read!(read_field(alloc, rest));
        have!(items.push(item));
        match take_word(COMMA, after) {
            Some((_, behind)) => rest = behind,
            None => return Ok((items, after)),
        }
    }
}

#[cycle(parse)]
fn read_field<'a>(alloc: Global, tokens: &'a [Token]) -> Read<'a, Field>
    ensures read { Reads g.IsField EndsExpr tokens.now result }
    ensures shorter { IfOk result (λ p. length p.1.now < length tokens.now) }
{
    let (name, place, rest) = name!(tokens);
    let rest = skip!(ARROW, rest);
    let (body, rest) = read!(read_field_body(alloc, rest));
    Ok((have!(field_node(alloc, name, body, place)), rest))
}

/// Behind the `if` at `place`.
#[cycle(parse)]
fn read_if<'a>(alloc: Global, place: u32, tokens: &'a [Token]) -> Read<'a, Expr>
    ensures read { Reads g.IsPrim Anything (token w.kw_if place ∷ tokens.now) result }
    ensures shorter { IfOk result (λ p. length p.1.now < length tokens.now) }
{
    let (first, rest) = read!(read_arm(alloc, tokens));
    let (more, rest) = read!(read_elsifs(alloc, rest); first);
    let arms = have!(front(alloc, first, more));
    let (last, rest) = read!(read_else(alloc, rest));
    Ok((if_node(arms, last, place), rest))
}

#[cycle(parse)]
fn read_arm<'a>(alloc: Global, tokens: &'a [Token]) -> Read<'a, Arm>
    ensures read { Reads g.IsArm EndsBlock tokens.now result }
    ensures shorter { IfOk result (λ p. length p.1.now < length tokens.now) }
{
    let (test, rest) = read!(read_until(alloc, THEN, tokens));
    let (body, rest) = read!(read_block(alloc, rest); test);
    Ok((Arm { test, body }, rest))
}

#[cycle(parse)]
fn read_guard<'a>(alloc: Global, tokens: &'a [Token]) -> Read<'a, Arm>
    ensures read { Reads g.IsGuard EndsBlock tokens.now result }
    ensures shorter { IfOk result (λ p. length p.1.now < length tokens.now) }
{
    let (test, rest) = read!(read_until(alloc, ARROW, tokens));
    let (body, rest) = read!(read_block(alloc, rest); test);
    Ok((Arm { test, body }, rest))
}

/// The `elsif` parts.
#[cycle(parse)]
fn read_elsifs<'a>(alloc: Global, tokens: &'a [Token]) -> Read<'a, Items<Arm>>
    requires { EndsBlock (next tokens.now) }
    ensures read { Reads g.IsElsifs EndsElsifs tokens.now result }
    ensures shorter { IfOk result (λ p. length p.1.now ≤ length tokens.now) }
{
    let mut arms = Items::new(alloc);
    let mut rest = tokens;
    while let Some((_, behind)) = take_word(ELSIF, rest) {
        let (arm, after) = read!(read_arm(alloc, behind));
        arms = have!(with_arm(arms, arm));
        rest = after;
    }
    Ok((arms, rest))
}

/// The `except` parts behind the first one.
#[cycle(parse)]
fn read_guards<'a>(alloc: Global, tokens: &'a [Token]) -> Read<'a, Items<Arm>>
    requires { EndsBlock (next tokens.now) }
    ensures read { Reads g.IsGuards EndsGuards tokens.now result }
    ensures shorter { IfOk result (λ p. length p.1.now ≤ length tokens.now) }
{
    let mut arms = Items::new(alloc);
    let mut rest = tokens;
    while let Some((_, behind)) = take_word(EXCEPT, rest) {
        let (arm, after) = read!(read_guard(alloc, behind));
        arms = have!(with_arm(arms, arm));
        rest = after;
    }
    Ok((arms, rest))
}

/// An `else` block, if there is one, and the `end`.
#[cycle(parse)]
fn read_else<'a>(alloc: Global, tokens: &'a [Token]) -> Read<'a, Option<Block>>
    ensures read { Reads g.IsElse Anything tokens.now result }
    ensures shorter { IfOk result (λ p. length p.1.now < length tokens.now) }
{
    if let Some((_, rest)) = take_word(END, tokens) {
        return Ok((None, rest));
    }
    let rest = skip!(ELSE, tokens);
    let (body, rest) = read!(read_body(alloc, rest));
    Ok((Some(body), rest))
}

/// Behind the `loop` at `place`.
#[cycle(parse)]
fn read_loop<'a>(alloc: Global, place: u32, tokens: &'a [Token]) -> Read<'a, Expr>
    ensures read { Reads g.IsPrim Anything (token w.kw_loop place ∷ tokens.now) result }
    ensures shorter { IfOk result (λ p. length p.1.now < length tokens.now) }
{
    let (body, rest) = read!(read_body(alloc, tokens));
    Ok((loop_node(body, place), rest))
}

/// Behind the `for` at `place`.
#[cycle(parse)]
fn read_for<'a>(alloc: Global, place: u32, tokens: &'a [Token]) -> Read<'a, Expr>
    ensures read { Reads g.IsPrim Anything (token w.kw_for place ∷ tokens.now) result }
    ensures shorter { IfOk result (λ p. length p.1.now < length tokens.now) }
{
    let (name, _, rest) = name!(tokens);
    let rest = skip!(EQUALS, rest);
    let (from, rest) = read!(read_until(alloc, TO, rest));
    let (to, rest) = read!(read_until(alloc, DO, rest); from);
    let (body, rest) = read!(read_body(alloc, rest); from; to);
    Ok((have!(for_node(alloc, name, from, to, body, place)), rest))
}

/// Behind the `foreach` at `place`.
#[cycle(parse)]
fn read_foreach<'a>(alloc: Global, place: u32, tokens: &'a [Token]) -> Read<'a, Expr>
    ensures read { Reads g.IsPrim Anything (token w.kw_foreach place ∷ tokens.now) result }
    ensures shorter { IfOk result (λ p. length p.1.now < length tokens.now) }
{
    let (name, _, rest) = name!(tokens);
    let rest = skip!(IN, rest);
    let (array, rest) = read!(read_until(alloc, DO, rest));
    let (body, rest) = read!(read_body(alloc, rest); array);
    Ok((have!(foreach_node(alloc, name, array, body, place)), rest))
}

/// Behind the `try` at `place`.
#[cycle(parse)]
fn read_try<'a>(alloc: Global, place: u32, tokens: &'a [Token]) -> Read<'a, Expr>
    ensures read { Reads g.IsPrim Anything (token w.kw_try place ∷ tokens.now) result }
    ensures shorter { IfOk result (λ p. length p.1.now < length tokens.now) }
{
    let (body, rest) = read!(read_block(alloc, tokens));
    read_tried(alloc, place, body, rest)
}

/// Behind the `try` at `place` and its block.
#[cycle(parse)]
fn read_tried<'a>(alloc: Global, place: u32, body: Block, tokens: &'a [Token]) -> Read<'a, Expr>
    ensures read { Reads (g.IsTry place body) Anything tokens.now result }
    ensures shorter { IfOk result (λ p. length p.1.now < length tokens.now) }
{
    if let Some((_, rest)) = take_word(FINALLY, tokens) {
        let (last, rest) = read!(read_body(alloc, rest));
        return Ok((finally_node(body, last, place), rest));
    }
    let rest = skip!(EXCEPT, tokens);
    let (first, rest) = read!(read_guard(alloc, rest));
    let (more, rest) = read!(read_guards(alloc, rest); first);
    let arms = have!(front(alloc, first, more));
    let (last, rest) = read!(read_else(alloc, rest));
    Ok((try_node(body, arms, last, place), rest))
}

/// Behind the `raise` at `place`.
#[cycle(parse)]
fn read_raise<'a>(alloc: Global, place: u32, tokens: &'a [Token]) -> Read<'a, Expr>
    ensures read { Reads g.IsPrim Anything (token w.kw_raise place ∷ tokens.now) result }
    ensures shorter { IfOk result (λ p. length p.1.now < length tokens.now) }
{
    let rest = skip!(OPEN, tokens);
    let (value, rest) = read!(read_until(alloc, CLOSE, rest));
    Ok((have!(raise_node(alloc, value, place)), rest))
}

/// Behind the `watch` at `place`.
#[cycle(parse)]
fn read_watch<'a>(alloc: Global, place: u32, tokens: &'a [Token]) -> Read<'a, Expr>
    ensures read { Reads g.IsPrim Anything (token w.kw_watch place ∷ tokens.now) result }
    ensures shorter { IfOk result (λ p. length p.1.now < length tokens.now) }
{
    let (condition, rest) = read!(read_until(alloc, UNTIL, tokens));
    let (guard, rest) = read!(read_until(alloc, END, rest); condition);
    Ok((have!(watch_node(alloc, condition, guard, place)), rest))
}

/// Behind the `redirect` at `place`.
#[cycle(parse)]
fn read_redirect<'a>(alloc: Global, place: u32, tokens: &'a [Token]) -> Read<'a, Expr>
    ensures read { Reads g.IsPrim Anything (token w.kw_redirect place ∷ tokens.now) result }
    ensures shorter { IfOk result (λ p. length p.1.now < length tokens.now) }
{
    let (object, rest) = read!(read_until(alloc, TO, tokens));
    let (target, rest) = read!(read_until(alloc, END, rest); object);
    Ok((have!(redirect_node(alloc, object, target, place)), rest))
}

/// Behind the `clone` at `place`.
#[cycle(parse)]
fn read_clone<'a>(alloc: Global, place: u32, tokens: &'a [Token]) -> Read<'a, Expr>
    ensures read { Reads g.IsPrim Anything (token w.kw_clone place ∷ tokens.now) result }
    ensures shorter { IfOk result (λ p. length p.1.now < length tokens.now) }
{
    let rest = skip!(OPEN, tokens);
    let (objects, rest) = read!(read_args(alloc, rest));
    let rest = skip!(CLOSE, rest);
    Ok((clone_node(objects, place), rest))
}
