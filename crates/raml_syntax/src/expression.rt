// Expressions, by descent. A node is counted before what stands below it is read, so no text leads
// deeper than a tree may be.
ghost use Rattle.std.specs.Prelude.{◌≡◌, ◌≤◌, ◌<◌, ◌+◌, IfOk, OnOk, [], if◌then◌else◌, Some, None};
ghost use Rattle.raml_lex.specs.Views.{tok_of};
ghost use Rattle.alg_model.specs.Views.{expression_of};
ghost use Rattle.alg_model.specs.Formation.{node_count};
ghost use Rattle.raml_syntax.specs.declared.faults.ExprKind.TheVariants.{CarriersDiffer};
ghost use Rattle.raml_syntax.specs.Meaning.{single_meaning};
ghost use Rattle.raml_syntax.specs.Marks.{closing};
ghost use Rattle.raml_syntax.specs.Leaves.{IsReady, IsMark};
ghost use Rattle.raml_syntax.specs.Sequences.{Nothing, Reads, map_ok};
ghost use Rattle.raml_syntax.specs.Trees.{Expr};
ghost use Rattle.raml_syntax.specs.Heads.{paired_of, single_of};
ghost use Rattle.raml_syntax.specs.Forest.{IsTree, tree_at};
ghost use Rattle.raml_syntax.specs.Definitions.{Keeps, ReadAs};
ghost use Rattle.raml_syntax.specs.Forms.{After, TableTail, Closed, PairedTail, SingleTail, Tail, Resolves};

use crate::base::{read_add, read_counted, read_ranged};
use crate::definitions::Definitions;
use crate::expect::{refused, take_mark, take_mark_at, take_word};
use crate::forest::{Forest, Node, TreeId};
use crate::heads::{Head, Paired, Single, head_of};
use crate::nodes::count_node;
use crate::table::read_table;
use crate::{AlgError, ExprKind};
use alg_model::{MAX_TREE_NODES, Tree};
use meta_base::Place;
use raml_lex::{TokenKind, Tokens};
use std::alloc::Global;

/// Reads an expression: one that its names mean where these are defined, after so many nodes of the
/// present tree. Its nodes are counted on. What is defined stays as it was.
#[cycle(descent)]
pub fn read_expression(
    alloc: Global,
    tokens: &mut Tokens<'_>,
    definitions: &mut Definitions<'_>,
    nodes: &mut usize,
) -> Result<TreeId, AlgError>
    requires ready { IsReady tokens.old }
    requires room { nodes.old ≤ MAX_TREE_NODES }
    ensures ready { OnOk result (IsReady tokens.new) }
    ensures reads { Reads (Expr definitions.old.defined nodes.old) tokens.old
        (map_ok (tree_at definitions.new.trees) result) tokens.new }
    ensures keeps { OnOk result (Keeps definitions.old definitions.new) }
    ensures tree { IfOk result (IsTree definitions.new.trees) }
    ensures nodes { IfOk result (λ id. nodes.new ≡ nodes.old + node_count (tree_at definitions.new.trees id)) }
    ensures room { OnOk result (nodes.new ≤ MAX_TREE_NODES) }
{
    let word = take_word(tokens)?;
    match head_of(word.text) {
        Some(head) => {
            count_node(nodes, word.place)?;
            read_tail(alloc, tokens, definitions, nodes, head)
        }
        None => named_tree(definitions, nodes, word.text, word.place),
    }
}

// What stands after a head, whose node was counted.
#[cycle(descent)]
fn read_tail(
    alloc: Global,
    tokens: &mut Tokens<'_>,
    definitions: &mut Definitions<'_>,
    nodes: &mut usize,
    head: Head,
) -> Result<TreeId, AlgError>
    requires ready { IsReady tokens.old }
    requires root { 1 ≤ nodes.old }
    requires room { nodes.old ≤ MAX_TREE_NODES }
    ensures ready { OnOk result (IsReady tokens.new) }
    ensures reads { Reads (Tail definitions.old.defined nodes.old head) tokens.old
        (map_ok (tree_at definitions.new.trees) result) tokens.new }
    ensures keeps { OnOk result (Keeps definitions.old definitions.new) }
    ensures tree { IfOk result (IsTree definitions.new.trees) }
    ensures nodes { IfOk result (λ id. nodes.new + 1 ≡ nodes.old + node_count (tree_at definitions.new.trees id)) }
    ensures room { OnOk result (nodes.new ≤ MAX_TREE_NODES) }
{
    match head {
        Head::Add => plant_base(definitions, read_add(tokens)),
        Head::Ranged(kind) => plant_base(definitions, read_ranged(tokens, kind)),
        Head::Counted(kind) => plant_base(definitions, read_counted(tokens, kind)),
        Head::Gate => plant_base(definitions, Ok(Tree::Gate)),
        Head::Table => plant_base(definitions, read_table_tree(alloc, tokens)),
        Head::Paired(kind) => read_paired(alloc, tokens, definitions, nodes, kind),
        Head::Single(kind) => read_single(alloc, tokens, definitions, nodes, kind),
    }
}

// Plants the tree of a base algebra that was read, if it was.
fn plant_base(
    definitions: &mut Definitions<'_>,
    tree: Result<Tree, AlgError>,
) -> Result<TreeId, AlgError>
    requires { IfOk tree (λ tree. node_count (expression_of tree) ≡ 1) }
    ensures read { ReadAs (map_ok expression_of tree) (map_ok (tree_at definitions.new.trees) result) }
    ensures keeps { OnOk result (Keeps definitions.old definitions.new) }
    ensures tree { IfOk result (IsTree definitions.new.trees) }
    ensures node { IfOk result (λ id. node_count (tree_at definitions.new.trees id) ≡ 1) }
{
    Ok(definitions.plant(Node::Base(tree?))?)
}

// `(a, b)`, the parts of this operator.
#[cycle(descent)]
fn read_paired(
    alloc: Global,
    tokens: &mut Tokens<'_>,
    definitions: &mut Definitions<'_>,
    nodes: &mut usize,
    kind: Paired,
) -> Result<TreeId, AlgError>
    requires ready { IsReady tokens.old }
    requires root { 1 ≤ nodes.old }
    requires room { nodes.old ≤ MAX_TREE_NODES }
    ensures ready { OnOk result (IsReady tokens.new) }
    ensures reads { Reads (PairedTail definitions.old.defined nodes.old (paired_of kind)) tokens.old
        (map_ok (tree_at definitions.new.trees) result) tokens.new }
    ensures keeps { OnOk result (Keeps definitions.old definitions.new) }
    ensures tree { IfOk result (IsTree definitions.new.trees) }
    ensures nodes { IfOk result (λ id. nodes.new + 1 ≡ nodes.old + node_count (tree_at definitions.new.trees id)) }
    ensures room { OnOk result (nodes.new ≤ MAX_TREE_NODES) }
{
    let first = read_part(alloc, tokens, definitions, nodes, TokenKind::LeftParen)?;
    let second = read_part(alloc, tokens, definitions, nodes, TokenKind::Comma)?;
    close_paired(tokens, definitions, kind, first, second)
}

// `(a)`, the part of this operator.
#[cycle(descent)]
fn read_single(
    alloc: Global,
    tokens: &mut Tokens<'_>,
    definitions: &mut Definitions<'_>,
    nodes: &mut usize,
    kind: Single,
) -> Result<TreeId, AlgError>
    requires ready { IsReady tokens.old }
    requires root { 1 ≤ nodes.old }
    requires room { nodes.old ≤ MAX_TREE_NODES }
    ensures ready { OnOk result (IsReady tokens.new) }
    ensures reads { Reads (SingleTail definitions.old.defined nodes.old (single_of kind)) tokens.old
        (map_ok (tree_at definitions.new.trees) result) tokens.new }
    ensures keeps { OnOk result (Keeps definitions.old definitions.new) }
    ensures tree { IfOk result (IsTree definitions.new.trees) }
    ensures nodes { IfOk result (λ id. nodes.new + 1 ≡ nodes.old + node_count (tree_at definitions.new.trees id)) }
    ensures room { OnOk result (nodes.new ≤ MAX_TREE_NODES) }
{
    let part = read_part(alloc, tokens, definitions, nodes, TokenKind::LeftParen)?;
    close_single(tokens, definitions, kind, part)
}

// A part of an operator, and the mark before it.
#[cycle(descent)]
fn read_part(
    alloc: Global,
    tokens: &mut Tokens<'_>,
    definitions: &mut Definitions<'_>,
    nodes: &mut usize,
    mark: TokenKind,
) -> Result<TreeId, AlgError>
    requires ready { IsReady tokens.old }
    requires room { nodes.old ≤ MAX_TREE_NODES }
    requires mark { IsMark mark }
    ensures ready { OnOk result (IsReady tokens.new) }
    ensures reads { Reads (After (tok_of mark []) (Expr definitions.old.defined nodes.old)) tokens.old
        (map_ok (tree_at definitions.new.trees) result) tokens.new }
    ensures keeps { OnOk result (Keeps definitions.old definitions.new) }
    ensures tree { IfOk result (IsTree definitions.new.trees) }
    ensures nodes { IfOk result (λ id. nodes.new ≡ nodes.old + node_count (tree_at definitions.new.trees id)) }
    ensures room { OnOk result (nodes.new ≤ MAX_TREE_NODES) }
{
    take_mark(tokens, mark)?;
    read_expression(alloc, tokens, definitions, nodes)
}

// The parenthesis after both parts of an operator, which is refused where they can't be joined.
fn close_paired(
    tokens: &mut Tokens<'_>,
    definitions: &mut Definitions<'_>,
    kind: Paired,
    first: TreeId,
    second: TreeId,
) -> Result<TreeId, AlgError>
    requires ready { IsReady tokens.old }
    requires first { IsTree definitions.old.trees first }
    requires second { IsTree definitions.old.trees second }
    requires room { node_count (tree_at definitions.old.trees first)
        + node_count (tree_at definitions.old.trees second) < MAX_TREE_NODES }
    ensures ready { OnOk result (IsReady tokens.new) }
    ensures reads { Reads (Closed (paired_of kind) (tree_at definitions.old.trees first)
        (tree_at definitions.old.trees second)) tokens.old
        (map_ok (tree_at definitions.new.trees) result) tokens.new }
    ensures keeps { OnOk result (Keeps definitions.old definitions.new) }
    ensures tree { IfOk result (IsTree definitions.new.trees) }
    ensures nodes { IfOk result (λ id. node_count (tree_at definitions.new.trees id)
        ≡ 1 + node_count (tree_at definitions.old.trees first) + node_count (tree_at definitions.old.trees second)) }
{
    let place = take_mark_at(tokens, TokenKind::RightParen)?;
    if !may_join(definitions.forest(), kind, first, second) {
        return Err(refused(ExprKind::CarriersDiffer, place));
    }
    Ok(definitions.plant(Node::Paired(kind, first, second))?)
}

// Whether the operator takes these parts: `plus` wants one carrier.
fn may_join(forest: &Forest, kind: Paired, first: TreeId, second: TreeId) -> bool
    requires first { IsTree forest.now first }
    requires second { IsTree forest.now second }
    ensures { (if result then None else Some CarriersDiffer)
        ≡ (closing (paired_of kind) (tree_at forest.now first) (tree_at forest.now second)).fault }
{
    match kind {
        Paired::Plus => forest.have_same_carrier(first, second),
        Paired::Lex | Paired::Scoped | Paired::Union | Paired::Sum => true,
    }
}

// The parenthesis after the one part of an operator.
fn close_single(
    tokens: &mut Tokens<'_>,
    definitions: &mut Definitions<'_>,
    kind: Single,
    part: TreeId,
) -> Result<TreeId, AlgError>
    requires ready { IsReady tokens.old }
    requires part { IsTree definitions.old.trees part }
    requires room { node_count (tree_at definitions.old.trees part) < MAX_TREE_NODES }
    ensures ready { OnOk result (IsReady tokens.new) }
    ensures reads { Reads (After (tok_of TokenKind.RightParen [])
        (Nothing (single_meaning (single_of kind) (tree_at definitions.old.trees part)))) tokens.old
        (map_ok (tree_at definitions.new.trees) result) tokens.new }
    ensures keeps { OnOk result (Keeps definitions.old definitions.new) }
    ensures tree { IfOk result (IsTree definitions.new.trees) }
    ensures nodes { IfOk result (λ id. node_count (tree_at definitions.new.trees id)
        ≡ 1 + node_count (tree_at definitions.old.trees part)) }
{
    take_mark(tokens, TokenKind::RightParen)?;
    Ok(definitions.plant(Node::Single(kind, part))?)
}

// A table as a tree.
fn read_table_tree(alloc: Global, tokens: &mut Tokens<'_>) -> Result<Tree, AlgError>
    requires { IsReady tokens.old }
    ensures ready { OnOk result (IsReady tokens.new) }
    ensures reads { Reads TableTail tokens.old (map_ok expression_of result) tokens.new }
    ensures node { IfOk result (λ tree. node_count (expression_of tree) ≡ 1) }
{
    Ok(Tree::Table(read_table(alloc, tokens)?))
}

// The tree that a name stands for. All its nodes are counted, and none is copied.
fn named_tree(
    definitions: &Definitions<'_>,
    nodes: &mut usize,
    name: &[u8],
    place: Place,
) -> Result<TreeId, AlgError>
    requires { nodes.old ≤ MAX_TREE_NODES }
    ensures resolves { Resolves definitions.now.defined nodes.old name.now place
        (map_ok (tree_at definitions.now.trees) result) }
    ensures tree { IfOk result (IsTree definitions.now.trees) }
    ensures nodes { IfOk result (λ id. nodes.new ≡ nodes.old + node_count (tree_at definitions.now.trees id)) }
    ensures room { OnOk result (nodes.new ≤ MAX_TREE_NODES) }
{
    let Some(tree) = definitions.lookup(name) else {
        return Err(refused(ExprKind::UnknownName, place));
    };
    let size = definitions.forest().size(tree);
    if size > MAX_TREE_NODES - *nodes {
        return Err(refused(ExprKind::TooLarge, place));
    }
    *nodes += size;
    Ok(tree)
}
