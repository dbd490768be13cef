//! Laws of codes: what they stand for, where their trees end, and which procedure each is of.

ghost use Rattle.std.specs.Prelude.{◌≡◌, [], List, Option, Some, false, length, map, option_map, true, ℕ};
ghost use Rattle.obq_base.specs.declared.code.CodeNo.{CodeNo};
ghost use Rattle.obq_base.specs.declared.code.Node.{Node};
ghost use Rattle.obq_base.specs.declared.code.SourceCode.{SourceCode};
ghost use Rattle.obq_base.specs.declared.trees.Block.{Block};
ghost use Rattle.obq_base.specs.Tree.{BlockTree, ExprTree, ItemTree, ProcedureTree};
ghost use Rattle.obq_tables.specs.Tables.{builtin_arguments, builtins, exceptions};
ghost use Rattle.obq_model.specs.Builtins.{arity_of_builtin};
ghost use Rattle.obq_model.specs.CodeLaws.{IsInnermost, IsTable, IsWithin, raised_texts};
ghost use Rattle.obq_model.specs.Draft.{captured_by, draft_block, draft_expr, draft_item};
ghost use Rattle.obq_model.specs.Occurrences.{builtin_row, unbound};
ghost use Rattle.obq_model.specs.Opened.{builtin_at, builtins_in_order, open_block, open_body};
ghost use Rattle.obq_model.specs.Opening.{block_term, builtin_named};
ghost use Rattle.obq_model.specs.Procedures.{Proc};
ghost use Rattle.obq_model.specs.Put.{among};
ghost use Rattle.obq_model.specs.Reading.{occurs};
ghost use Rattle.obq_model.specs.Resolved.{AreResolved, IsCode};
ghost use Rattle.obq_model.specs.Scopes.{Outside, inside, outermost, slot_of};
ghost use Rattle.obq_model.specs.Skipped.{skipped};
ghost use Rattle.obq_model.specs.Terms.{Bytes};

/// A block without an unbound name opens as its code sees it. (The lemma has it over any references.)
pub fn codes_open_as_blocks()
    ensures { (writer : ℕ) (source : ℕ) (tree : BlockTree) → unbound tree ≡ [] → open_block writer (outermost source) [] tree ≡ block_term writer [] tree }
{}

/// The term of such a block has no free name. (So has this.)
pub fn terms_are_closed()
    ensures { (writer : ℕ) (tree : BlockTree) → unbound tree ≡ [] → (x : Bytes) → occurs x (block_term writer [] tree) ≡ false }
{}

/// A slot is among the binders in force, the captures or the members, and there it is the innermost
/// binder of its name.
pub fn slots_are_in_range()
    ensures { (o : Outside) (locals : List Bytes) (x : Bytes) → IsWithin o (length locals) (slot_of o locals x) × IsInnermost o locals (slot_of o locals x) x }
{}

/// A procedure captures exactly the names that are free in its term.
pub fn captures_occur()
    ensures needed { (writer : ℕ) (o : Outside) (locals : List Bytes) (p : ProcedureTree) (x : Bytes) → among x (captured_by o locals p) ≡ true → occurs x (open_body writer (inside o [] (captured_by o locals p)) p) ≡ true }
    ensures all { (writer : ℕ) (o : Outside) (locals : List Bytes) (p : ProcedureTree) (x : Bytes) → occurs x (open_body writer (inside o [] (captured_by o locals p)) p) ≡ true → among x (captured_by o locals p) ≡ true }
{}

/// Where the nodes of a block, an item or an expression end, by the numbers of children alone.
pub fn trees_end()
    ensures block { (procs : CodeNo → Option Proc) (o : Outside) (locals : List Bytes) (tree : BlockTree) (nodes rest : List Node) → IsCode procs (draft_block o locals tree) nodes rest → skipped 1 nodes ≡ rest }
    ensures item { (procs : CodeNo → Option Proc) (o : Outside) (locals : List Bytes) (tree : ItemTree) (nodes rest : List Node) → IsCode procs (draft_item o locals tree) nodes rest → skipped 1 nodes ≡ rest }
    ensures expr { (procs : CodeNo → Option Proc) (o : Outside) (locals : List Bytes) (tree : ExprTree) (nodes rest : List Node) → IsCode procs (draft_expr o locals tree) nodes rest → skipped 1 nodes ≡ rest }
{}

/// The machine's built-ins are those of the table, row by row.
pub fn builtins_are_rows()
    ensures names { map builtin_named builtins ≡ map Some builtins_in_order }
    ensures arguments { map arity_of_builtin builtins_in_order ≡ builtin_arguments }
    ensures rows { (x : Bytes) → builtin_named x ≡ option_map builtin_at (builtin_row x) }
{}

/// So are the texts of the exceptions that it raises.
pub fn exceptions_are_rows()
    ensures { raised_texts ≡ exceptions }
{}

/// The codes of a program have one table.
pub fn programs_have_a_table()
    ensures { (blocks : List Block) (parts : List SourceCode) → AreResolved 0 blocks parts → (procs : CodeNo → Option Proc) × IsTable procs blocks parts }
{}
