//! Laws of the grammar. No code runs here; a function is a law, its contract.
#![tactic(auto)]

ghost use Rattle.std.specs.Prelude.{◌≡◌, Contains, List, ℕ};
ghost use Rattle.obq_base.specs.declared.tokens.Token.{Token};
ghost use Rattle.obq_base.specs.declared.trees.Block.{Block};
ghost use Rattle.obq_base.specs.View.{block_tree};
ghost use Rattle.obq_model.specs.Leaves.{BlockLeaves};
ghost use Rattle.obq_model.specs.Grammar.{Derives};
ghost use Rattle.obq_model.specs.Nodes.{token};
ghost use Rattle.obq_model.specs.Occurrences.{IsFirstUnbound};
ghost use Rattle.obq_model.specs.Syntax.{IsFirstFault};
ghost use Rattle.obq_model.specs.Tokens.{IsAscending};
ghost use Rattle.obq_grammar.specs.Bounds.{SourcesAreBounded};

mod productions;

pub use productions::{call_is_no_target, fault_behind_block, limit_fails};

/// No tokens derive two trees.
pub fn one_tree()
    ensures { (tokens : List Token) (a b : Block) → Derives tokens a → Derives tokens b → a ≡ b }
{}

/// No tokens have two first faults.
pub fn one_fault()
    ensures { (tokens : List Token) (j k : ℕ) → IsFirstFault tokens j → IsFirstFault tokens k → j ≡ k }
{}

/// No tokens derive a tree and have a fault.
pub fn tree_or_fault()
    ensures { (tokens : List Token) (tree : Block) (k : ℕ) → Derives tokens tree → IsFirstFault tokens k → ⊥ }
{}

/// Each name that occurs in a derived tree, each integer and each text is a token at its place.
pub fn leaves_are_tokens()
    ensures { (tokens : List Token) (tree : Block) → Derives tokens tree → BlockLeaves (λ kind place. Contains tokens (token kind place)) (block_tree tree) }
{}

/// No tree that tokens at ascending places derive has two first unbound names.
pub fn one_unbound()
    ensures { (tokens : List Token) (tree : Block) (a b : List ℕ) (p q : ℕ) → IsAscending 0 tokens → Derives tokens tree → IsFirstUnbound (block_tree tree) a p → IsFirstUnbound (block_tree tree) b q → (a ≡ b) × (p ≡ q) }
{}

/// The trees of accepted sources have integers of 64 bits, and texts of at most 65,536 bytes.
pub fn sources_are_bounded()
    ensures law { SourcesAreBounded }
{}
