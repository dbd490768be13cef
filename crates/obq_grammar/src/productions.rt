//! Where the productions of the grammar fail.

ghost use Rattle.std.specs.Prelude.{◌≡◌, ◌-◌, [], ◌∷◌, ◌++◌, List, ℕ, length};
ghost use Rattle.obq_base.specs.declared.tokens.Token.{Token};
ghost use Rattle.obq_base.specs.declared.tokens.TokenKind.TheVariants as kind;
ghost use Rattle.obq_base.specs.declared.trees.Block.{Block};
ghost use Rattle.obq_base.specs.declared.trees.Expr.{Expr};
ghost use Rattle.obq_base.specs.declared.trees.Suffix.{Suffix};
ghost use Rattle.obq_base.specs.declared.trees.Suffix.TheVariants as suffix;
ghost use Rattle.obq_model.specs.Words.{kw_for, kw_to, sym_assign, sym_equals};
ghost use Rattle.obq_model.specs.Nodes.{next, token};
ghost use Rattle.obq_model.specs.Grammar.{IsBlock, IsExpr, IsItem, IsPrim, IsSuffixed};
ghost use Rattle.obq_model.specs.Syntax.{IsEnded, IsFirstFault};
ghost use Rattle.obq_grammar.specs.Fails.{Fails};
ghost use Rattle.obq_grammar.specs.Follow.{Anything, EndsBlock, EndsExpr, EndsItem, EndsProgram};

/// Where the limit of a `for` fails, the `for` fails.
pub fn limit_fails()
    ensures { (n : List ℕ) (v : Expr) (p q t u : ℕ) (x y z : List Token) → IsExpr v x (token kw_to u ∷ y) → Fails IsExpr EndsExpr y z → Fails IsPrim Anything (token kw_for p ∷ token (kind.Name n) q ∷ token sym_equals t ∷ x) z }
{}

/// An item fails at a `:=` behind a call.
pub fn call_is_no_target()
    ensures { (h : Expr) (ss : List Suffix) (vs : List Expr) (p q : ℕ) (x y : List Token) → IsSuffixed h (ss ++ suffix.Apply vs p ∷ []) x (token sym_assign q ∷ y) → Fails IsItem EndsItem x (token sym_assign q ∷ y) }
{}

/// Where a block ends and no program does, there is the first fault.
pub fn fault_behind_block()
    ensures { (a : Block) (x z : List Token) → IsBlock a x z → EndsBlock (next z) → (EndsProgram (next z) → ⊥) → IsEnded x → IsFirstFault x (length x - length z) }
{}
