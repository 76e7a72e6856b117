//! Lists of nodes.
ghost use Rattle.std.specs.Prelude.{◌≡◌, ℕ, List, [], ◌∷◌, ◌++◌, option_map, Some, false, IfErr, IfOk, None, OnOk};
ghost use Rattle.dbc_grammar.specs.Fields as fields;
ghost use Rattle.dbc_grammar.specs.Parsing.{token_at, many_at, further_at, some_names_at, nodes_at};
ghost use Rattle.dbc_grammar.specs.Rules.{begins};
ghost use Rattle.dbc_lex.specs.Fault.{UnlessMemory};
ghost use Rattle.dbc_statements.specs.Names.{names_in, with_names};
ghost use Rattle.dbc_statements.specs.Reading.{ReadsTokens, itself};
ghost use Rattle.dbc_statements.specs.Statement.{names_of};

use crate::fields::optional_mark;
use crate::statement::NodeName;
use crate::tokens::Tokens;
use crate::words::{is_made_name, is_mark, is_no_node, is_node, is_word};
use dbc_lex::{ReadCode, ReadFault};
use dbc_sheet::Receivers;
use dbc_words::Name;
use std::alloc::{AllocError, Global};

/// How what was read ends, as far as it matters for a fault at the next token.
#[derive(Clone, Copy)]
pub(crate) enum ListEnd {
    /// With the last name of a list.
    Names,
    /// With a list that has no names.
    NoNames,
    /// With anything else.
    Other,
}

/// A node's name, and the offset at which it is.
type NameAt = (usize, Name);

/// A list of nodes that is read.
pub(crate) trait NodeList {
    /// The names of the nodes.
    ghost names: { Self → List (List ℕ) };

    /// No nodes. Takes no memory.
    fn empty(alloc: Global) -> Self
        ensures { names result ≡ [] };

    /// Adds the node of this name, which is at the offset. The error is out of memory.
    fn add(&mut self, alloc: Global, offset: usize, name: Name) -> Result<(), AllocError>
        ensures { OnOk result (names self.new ≡ names self.old ++ name ∷ []) };

    /// Gives back the memory that the list doesn't need.
    fn finish(&mut self)
        ensures { names self.new ≡ names self.old };
}

/// The names alone.
impl NodeList for Receivers {
    ghost names = { λ receivers. receivers };

    #[inline(always)]
    fn empty(_alloc: Global) -> Receivers {
        Receivers::new()
    }

    #[inline(always)]
    fn add(&mut self, alloc: Global, _offset: usize, name: Name) -> Result<(), AllocError> {
        self.push(alloc, name)
    }

    #[inline(always)]
    fn finish(&mut self) {}
}

/// The names with their offsets.
impl NodeList for Vec<NodeName> {
    ghost use Rattle.dbc_statements.specs.Statement.{names_of};

    ghost names = { λ nodes. names_of nodes.items };

    fn empty(alloc: Global) -> Vec<NodeName> {
        Vec::new(alloc)
    }

    fn add(&mut self, _alloc: Global, offset: usize, name: Name) -> Result<(), AllocError> {
        self.reserve(1)?;
        self.push_reserved(NodeName { at: offset, name });
        Ok(())
    }

    fn finish(&mut self) {
        self.shrink_to_fit();
    }
}

/// Whether a name of a list comes next.
#[inline(always)]
fn begins_node(tokens: &Tokens) -> bool
    ensures { result ≡ begins fields.node_of tokens.now }
{
    match tokens.first() {
        Some(token) => is_node(&token),
        None => false,
    }
}

/// Whether a further name of a list comes next, with a comma before it or without.
#[inline(always)]
fn goes_on(tokens: &Tokens) -> bool
    ensures { result ≡ fields.goes_on tokens.now }
{
    match tokens.first() {
        Some(token) if is_mark(&token, b',') => match tokens.second() {
            Some(second) => is_node(&second),
            None => false,
        },
        Some(token) => is_node(&token),
        None => false,
    }
}

/// A node; `None` for the name that means no node.
#[inline(always)]
fn node(alloc: Global, tokens: &mut Tokens) -> Result<Option<NameAt>, ReadFault>
    ensures { ReadsTokens (option_map (λ node. node.1)) result (token_at fields.node_of tokens.old)
        tokens.new }
{
    let at = tokens.offset();
    match tokens.first() {
        Some(token) if is_no_node(&token) => {
            tokens.skip();
            Ok(None)
        }
        Some(token) if is_made_name(&token) => {
            let name = Name::of_kept(alloc, token.text)?;
            tokens.skip();
            Ok(Some((at, name)))
        }
        Some(token) if is_word(&token) => Err(ReadFault {
            code: ReadCode::Name,
            at,
        }),
        _ => Err(tokens.unexpected()),
    }
}

/// A further name of a list, with the comma before it if there is one.
#[inline(always)]
#[tactic(auto, unfolding(dbc_grammar::specs::Parsing::further_at))]
fn further(alloc: Global, tokens: &mut Tokens) -> Result<Option<NameAt>, ReadFault>
    ensures { ReadsTokens (option_map (λ node. node.1)) result (further_at tokens.old) tokens.new }
{
    optional_mark(tokens, b',');
    node(alloc, tokens)
}

/// Adds the node to the list, if there is one.
#[inline(always)]
fn add<L: NodeList>(alloc: Global, nodes: &mut L, node: Option<NameAt>) -> Result<(), AllocError>
    ensures { OnOk result (L.names nodes.new ≡ L.names nodes.old
        ++ names_in (option_map (λ node. node.1) node ∷ [])) }
{
    match node {
        Some((at, name)) => nodes.add(alloc, at, name),
        None => Ok(()),
    }
}

/// Adds all further nodes of a list.
fn add_further<L: NodeList>(
    alloc: Global,
    tokens: &mut Tokens,
    nodes: &mut L,
) -> Result<(), ReadFault>
    ensures ok { OnOk result
        (with_names (L.names nodes.old) (many_at fields.goes_on further_at tokens.old)
        ≡ Some (L.names nodes.new, tokens.new)) }
    ensures end { OnOk result (fields.goes_on tokens.new ≡ false) }
    ensures err { IfErr result (λ fault. UnlessMemory fault.code
        (many_at fields.goes_on further_at tokens.old ≡ None)) }
{
    'nodes: while goes_on(tokens) {
        let next = further(alloc, tokens)?;
        add(alloc, nodes, next)?;
    }
    Ok(())
}

/// The list of this node alone, if there is one.
#[inline(always)]
fn list_of<L: NodeList + Drop>(alloc: Global, first: Option<NameAt>) -> Result<L, AllocError>
    ensures { IfOk result (λ nodes. L.names nodes
        ≡ names_in (option_map (λ node. node.1) first ∷ [])) }
{
    let mut nodes = L::empty(alloc);
    add(alloc, &mut nodes, first)?;
    Ok(nodes)
}

/// A list of at least one name. It takes no more memory than it needs.
#[tactic(auto, unfolding(dbc_grammar::specs::Parsing::some_names_at))]
fn some_nodes<L: NodeList + Drop>(alloc: Global, tokens: &mut Tokens) -> Result<L, ReadFault>
    ensures { ReadsTokens (λ nodes. L.names nodes) result (some_names_at tokens.old) tokens.new }
{
    let first = node(alloc, tokens)?;
    let mut nodes: L = list_of(alloc, first)?;
    add_further(alloc, tokens, &mut nodes)?;
    nodes.finish();
    Ok(nodes)
}

/// A list of nodes, without the names that mean no node, and how it ends.
#[tactic(auto, unfolding(dbc_grammar::specs::Parsing::nodes_at, dbc_grammar::specs::Parsing::no_names_at))]
fn nodes<L: NodeList + Drop>(alloc: Global, tokens: &mut Tokens) -> Result<(L, ListEnd), ReadFault>
    ensures { ReadsTokens (λ list. L.names list.0) result (nodes_at tokens.old) tokens.new }
{
    if begins_node(tokens) {
        let names = some_nodes(alloc, tokens)?;
        return Ok((names, ListEnd::Names));
    }
    Ok((L::empty(alloc), ListEnd::NoNames))
}

/// The nodes of a list with the offsets of their names, and how it ends.
pub(crate) fn nodes_with_offsets(
    alloc: Global,
    tokens: &mut Tokens,
) -> Result<(Vec<NodeName>, ListEnd), ReadFault>
    ensures { ReadsTokens (λ list. names_of list.0.items) result (nodes_at tokens.old) tokens.new }
{
    nodes::<Vec<NodeName>>(alloc, tokens)
}

/// The names of a list of nodes, and how it ends.
pub(crate) fn receivers(
    alloc: Global,
    tokens: &mut Tokens,
) -> Result<(Receivers, ListEnd), ReadFault>
    ensures { ReadsTokens (λ list. list.0) result (nodes_at tokens.old) tokens.new }
{
    nodes::<Receivers>(alloc, tokens)
}

/// The node that sends a message; `None` for the name that means no node.
pub(crate) fn transmitter(alloc: Global, tokens: &mut Tokens) -> Result<Option<Name>, ReadFault>
    ensures { ReadsTokens itself result (token_at fields.node_of tokens.old) tokens.new }
{
    match node(alloc, tokens)? {
        Some((_at, name)) => Ok(Some(name)),
        None => Ok(None),
    }
}
