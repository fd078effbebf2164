//! The machine over tokens.

ghost use Rattle.std.specs.Prelude.{◌≡◌, suc, Some, IfOk, MatchOption};
ghost use Rattle.std.specs.Option.{option_map};
ghost use Rattle.dot_text.specs.Tokens.{Close};
ghost use Rattle.dot_text.specs.Documents.{keep};
ghost use Rattle.dot_text.specs.Machine.{kept_of, ready, ended, listed, inside, step};
ghost use Rattle.dot_text.specs.States.{doc_so_far, spot_in, state_of};

use crate::depth::Depth;
use crate::doc::{Doc, DocEdge, DocNode};
use crate::state::{Body, Lists, Owner, Spot, State};
use crate::token::Token;
use port_types::{Items, NoMemory, Text};
use std::alloc::Global;

/// The body in one more subgraph, or `None` where no more may be opened.
fn deeper(body: Body) -> Option<Body>
    ensures { MatchOption result (body.depth.left ≡ 0) (λ inner. (body.depth.left ≡ suc inner.depth.left) × (inner.depth.nested ≡ suc body.depth.nested) × (doc_so_far inner ≡ doc_so_far body)) }
{
    let Body {
        depth,
        nodes,
        edges,
    } = body;
    let depth = depth.opened()?;
    Some(Body {
        depth,
        nodes,
        edges,
    })
}

/// Behind a closing brace: of a subgraph, or of the document.
fn closed(body: Body) -> State
    ensures { Some (state_of result) ≡ ready body.depth.left body.depth.nested (doc_so_far body) Close }
{
    let Body {
        depth,
        nodes,
        edges,
    } = body;
    match depth.closed() {
        Some(depth) => State::Within(
            Body {
                depth,
                nodes,
                edges,
            },
            Spot::Ended,
        ),
        None => State::Whole(Doc {
            nodes: Items::new(nodes),
            edges: Items::new(edges),
        }),
    }
}

/// Where a statement or a `}` may stand.
fn ready(body: Body, token: Token) -> Option<State>
    ensures { option_map state_of result ≡ ready body.depth.left body.depth.nested (doc_so_far body) token }
{
    match token {
        Token::Id(name) => Some(State::Within(body, Spot::Identified(name))),
        Token::Default => Some(State::Within(body, Spot::Defaulted)),
        Token::Subgraph => Some(State::Within(deeper(body)?, Spot::Headed)),
        Token::Open => Some(State::Within(deeper(body)?, Spot::Ready)),
        Token::Close => Some(closed(body)),
        _ => None,
    }
}

/// Behind a statement.
fn ended(body: Body, token: Token) -> Option<State>
    ensures { option_map state_of result ≡ ended body.depth.left body.depth.nested (doc_so_far body) token }
{
    match token {
        Token::Semicolon => Some(State::Within(body, Spot::Ready)),
        token => ready(body, token),
    }
}

/// The body with the statement whose attribute lists ended.
fn kept(body: Body, lists: Lists) -> Result<Body, NoMemory>
    ensures depth { IfOk result (λ after. after.depth ≡ body.depth) }
    ensures doc { IfOk result (λ after. doc_so_far after ≡ keep (doc_so_far body) (kept_of lists.owner lists.pairs.items)) }
{
    let Body {
        depth,
        mut nodes,
        mut edges,
    } = body;
    let Lists { owner, pairs } = lists;
    match owner {
        Owner::OfNode(name) => {
            if !pairs.is_empty() {
                let pairs = Items::new(pairs);
                nodes.push(DocNode { name, pairs })?;
            }
        }
        Owner::OfEdge(source, target) => {
            let pairs = Items::new(pairs);
            edges.push(DocEdge {
                source,
                target,
                pairs,
            })?;
        }
        Owner::OfDefault => {}
    }
    Ok(Body {
        depth,
        nodes,
        edges,
    })
}

/// Behind an attribute list, or where the first may stand.
fn listed(body: Body, lists: Lists, token: Token) -> Result<Option<State>, NoMemory>
    ensures { IfOk result (λ next. option_map state_of next ≡ listed body.depth.left body.depth.nested (doc_so_far body) lists.owner lists.pairs.items token) }
{
    match token {
        Token::OpenList => Ok(Some(State::Within(body, Spot::Inside(lists)))),
        token => Ok(ended(kept(body, lists)?, token)),
    }
}

/// In an attribute list, where a pair or the end may stand.
fn inside(body: Body, lists: Lists, token: Token) -> Option<State>
    ensures { option_map state_of result ≡ inside body.depth.left body.depth.nested (doc_so_far body) lists.owner lists.pairs.items token }
{
    match token {
        Token::Id(key) => Some(State::Within(body, Spot::Keyed(lists, key))),
        Token::CloseList => Some(State::Within(body, Spot::Listed(lists))),
        _ => None,
    }
}

/// Before all.
fn begun(alloc: Global, token: Token) -> Option<State>
    ensures { option_map state_of result ≡ step (state_of State.Begin) token }
{
    match token {
        Token::Digraph => {
            let body = Body {
                depth: Depth::none(),
                nodes: Vec::new(alloc),
                edges: Vec::new(alloc),
            };
            Some(State::Within(body, Spot::Headed))
        }
        _ => None,
    }
}

/// Behind `digraph` or `subgraph`.
fn headed(body: Body, token: Token) -> Option<State>
    ensures { option_map state_of result ≡ step (spot_in body Spot.Headed) token }
{
    match token {
        Token::Id(_) => Some(State::Within(body, Spot::Named)),
        Token::Open => Some(State::Within(body, Spot::Ready)),
        _ => None,
    }
}

/// Behind the name of a graph.
fn named(body: Body, token: Token) -> Option<State>
    ensures { option_map state_of result ≡ step (spot_in body Spot.Named) token }
{
    match token {
        Token::Open => Some(State::Within(body, Spot::Ready)),
        _ => None,
    }
}

/// Behind the first ID of a statement.
fn identified(
    alloc: Global,
    body: Body,
    name: Text,
    token: Token,
) -> Result<Option<State>, NoMemory>
    ensures { IfOk result (λ next. option_map state_of next ≡ step (spot_in body (Spot.Identified name)) token) }
{
    match token {
        Token::Arrow => Ok(Some(State::Within(body, Spot::Pointed(name)))),
        Token::Equals => Ok(Some(State::Within(body, Spot::Setting))),
        token => {
            let lists = Lists {
                owner: Owner::OfNode(name),
                pairs: Vec::new(alloc),
            };
            listed(body, lists, token)
        }
    }
}

/// Behind an arrow.
fn pointed(alloc: Global, body: Body, source: Text, token: Token) -> Option<State>
    ensures { option_map state_of result ≡ step (spot_in body (Spot.Pointed source)) token }
{
    match token {
        Token::Id(target) => {
            let lists = Lists {
                owner: Owner::OfEdge(source, target),
                pairs: Vec::new(alloc),
            };
            Some(State::Within(body, Spot::Listed(lists)))
        }
        _ => None,
    }
}

/// Behind the `=` of a statement.
fn setting(body: Body, token: Token) -> Option<State>
    ensures { option_map state_of result ≡ step (spot_in body Spot.Setting) token }
{
    match token {
        Token::Id(_) => Some(State::Within(body, Spot::Ended)),
        _ => None,
    }
}

/// Behind `graph`, `node` or `edge`.
fn defaulted(alloc: Global, body: Body, token: Token) -> Option<State>
    ensures { option_map state_of result ≡ step (spot_in body Spot.Defaulted) token }
{
    match token {
        Token::OpenList => {
            let lists = Lists {
                owner: Owner::OfDefault,
                pairs: Vec::new(alloc),
            };
            Some(State::Within(body, Spot::Inside(lists)))
        }
        _ => None,
    }
}

/// Behind the key of a pair.
fn keyed(body: Body, lists: Lists, key: Text, token: Token) -> Option<State>
    ensures { option_map state_of result ≡ step (spot_in body (Spot.Keyed lists key)) token }
{
    match token {
        Token::Equals => Some(State::Within(body, Spot::Equated(lists, key))),
        _ => None,
    }
}

/// Behind the `=` of a pair.
fn equated(body: Body, lists: Lists, key: Text, token: Token) -> Result<Option<State>, NoMemory>
    ensures { IfOk result (λ next. option_map state_of next ≡ step (spot_in body (Spot.Equated lists key)) token) }
{
    match token {
        Token::Id(value) => {
            let Lists { owner, mut pairs } = lists;
            pairs.push((key, value))?;
            Ok(Some(State::Within(body, Spot::Paired(Lists { owner, pairs }))))
        }
        _ => Ok(None),
    }
}

/// Behind a pair.
fn paired(body: Body, lists: Lists, token: Token) -> Option<State>
    ensures { option_map state_of result ≡ step (spot_in body (Spot.Paired lists)) token }
{
    match token {
        Token::Comma | Token::Semicolon => Some(State::Within(body, Spot::Inside(lists))),
        token => inside(body, lists, token),
    }
}

/// The state behind a token within a document.
fn step_within(
    alloc: Global,
    body: Body,
    spot: Spot,
    token: Token,
) -> Result<Option<State>, NoMemory>
    ensures { IfOk result (λ next. option_map state_of next ≡ step (spot_in body spot) token) }
{
    match spot {
        Spot::Headed => Ok(headed(body, token)),
        Spot::Named => Ok(named(body, token)),
        Spot::Ready => Ok(ready(body, token)),
        Spot::Ended => Ok(ended(body, token)),
        Spot::Identified(name) => identified(alloc, body, name, token),
        Spot::Pointed(source) => Ok(pointed(alloc, body, source, token)),
        Spot::Setting => Ok(setting(body, token)),
        Spot::Defaulted => Ok(defaulted(alloc, body, token)),
        Spot::Listed(lists) => listed(body, lists, token),
        Spot::Inside(lists) => Ok(inside(body, lists, token)),
        Spot::Keyed(lists, key) => Ok(keyed(body, lists, key, token)),
        Spot::Equated(lists, key) => equated(body, lists, key, token),
        Spot::Paired(lists) => Ok(paired(body, lists, token)),
    }
}

/// The state behind a token, or `None` where it cannot follow. The only error is want of memory.
pub(crate) fn step(alloc: Global, state: State, token: Token) -> Result<Option<State>, NoMemory>
    ensures { IfOk result (λ next. option_map state_of next ≡ step (state_of state) token) }
{
    match state {
        State::Begin => Ok(begun(alloc, token)),
        State::Within(body, spot) => step_within(alloc, body, spot, token),
        State::Whole(_) => Ok(None),
    }
}
