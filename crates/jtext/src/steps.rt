//! One token of a text, or the white space before it.

ghost use Rattle.std.specs.Prelude.{◌≡◌, ◌+◌, ◌-◌, ◌^◌, ◌≤◌, ◌<◌, ◌↔◌, ◌++◌, [], ◌∷◌, length, slice_range, IsTrue};
ghost use Rattle.std.specs.Prelude.{OnOk};
ghost use Rattle.std.specs.List.{AllByRecursion};
ghost use Rattle.jtext.specs.Nodes.{node};
ghost use Rattle.jtext.specs.InsideSigns.{byte_sign, word_rest, word_kind, bracket_kind};
ghost use Rattle.jtext.specs.InsideStates.{Role, Token, Reached, Takes, Goes, IsBlack, IsBehind, same_bracket};
ghost use Rattle.jtext.specs.InsideStates.{first_place};
ghost use Rattle.jtext.specs.InsideStates.{next_wanted, state_in_token, key_step, value_step, stand_step, state_at_open, closed_one};
ghost use Rattle.jtext.specs.InsideStates.{state_at_comma};
ghost use Rattle.jtext.specs.Values.{IsBlank};

use crate::document::{Kind, Node};
use crate::json_texts::{DEEPEST, JsonFault};
use crate::number::{NumberPlace, number_end};
use crate::signs::{Bracket, Sign, Word};
use crate::stack::{Open, Stack};
use crate::text::text_end;
use crate::word::word_end;
use std::alloc::{AllocError, Global};

/// What may come between tokens.
#[derive(Clone, Copy)]
pub enum Expectation {
    Value,
    /// A value or the end of the array.
    FirstElement,
    /// A key or the end of the object.
    FirstKey,
    Key,
    Colon,
    /// A value was read.
    Behind,
}

/// What is open, and the nodes so far. The end and the next node of what is open are not known yet.
#[derive(Drop)]
pub struct Pass {
    pub stack: Stack,
    pub nodes: Vec<Node>,
}

impl Pass {
    /// Before the first byte: nothing is open, and there are no nodes, with room for this many if there is memory.
    pub fn with_room(alloc: Global, count: usize) -> Pass
        ensures stack { result.stack ≡ [] }
        ensures nodes { result.nodes.items ≡ [] }
    {
        Pass {
            stack: Stack::none(alloc),
            nodes: room_for(alloc, count),
        }
    }
}

/// No nodes, with room for this many if there is memory.
fn room_for(alloc: Global, count: usize) -> Vec<Node>
    ensures { result.items ≡ [] }
{
    match Vec::with_capacity(alloc, count) {
        Ok(nodes) => nodes,
        Err(_) => Vec::new(alloc),
    }
}

impl Word {
    /// The letters after the first one.
    fn rest(self) -> &'static [u8]
        ensures { result.now ≡ word_rest self }
    {
        match self {
            Word::Null => b"ull",
            Word::True => b"rue",
            Word::False => b"alse",
        }
    }

    fn kind(self) -> Kind
        ensures { result ≡ word_kind self }
    {
        match self {
            Word::Null => Kind::Null,
            Word::True => Kind::True,
            Word::False => Kind::False,
        }
    }
}

impl Bracket {
    fn kind(self) -> Kind
        ensures { result ≡ bracket_kind self }
    {
        match self {
            Bracket::Square => Kind::Array,
            Bracket::Curly => Kind::Object,
        }
    }

    fn is_same(self, other: Bracket) -> bool
        ensures { result ≡ same_bracket self other }
    {
        match self {
            Bracket::Square => match other {
                Bracket::Square => true,
                Bracket::Curly => false,
            },
            Bracket::Curly => match other {
                Bracket::Square => false,
                Bracket::Curly => true,
            },
        }
    }

    /// What may come after the opening bracket.
    fn first_place(self) -> Expectation
        ensures { result ≡ first_place self }
    {
        match self {
            Bracket::Square => Expectation::FirstElement,
            Bracket::Curly => Expectation::FirstKey,
        }
    }

    /// What comes after a comma.
    fn next_wanted(self) -> Expectation
        ensures { result ≡ next_wanted self }
    {
        match self {
            Bracket::Square => Expectation::Value,
            Bracket::Curly => Expectation::Key,
        }
    }
}

/// The first place from this one on where no white space is.
fn blanks_end(bytes: &[u8], from: usize) -> usize
    requires { from ≤ length bytes.now }
    ensures within { (from ≤ result) × (result ≤ length bytes.now) }
    ensures blank { AllByRecursion IsBlank (slice_range bytes.now from result) }
{
    let mut at = from;
    while at < bytes.len() && is_blank(bytes[at]) {
        at += 1;
    }
    at
}

fn is_blank(byte: u8) -> bool
    ensures { IsTrue result ↔ IsBlank byte }
{
    byte == b' ' || byte == b'\n' || byte == b'\r' || byte == b'\t'
}

/// Adds the node of a value or key without inner ones.
#[inline(always)]
fn add_node(nodes: &mut Vec<Node>, kind: Kind, start: usize, end: usize) -> Result<(), AllocError>
    requires few { length nodes.old.items < end }
    requires start { start < end }
    requires end { end < 2 ^ 32 }
    ensures ok { OnOk result (nodes.new.items ≡ nodes.old.items ++ node kind start end (length nodes.old.items + 1) ∷ []) }
{
    let next = nodes.len() as u32 + 1;
    nodes.push(Node {
        kind,
        start: start as u32,
        end: end as u32,
        next,
    })?;
    Ok(())
}

/// A fault at this place.
fn bad(at: usize) -> JsonFault
    ensures { result ≡ JsonFault.Bad at }
{
    JsonFault::Bad { at: at as u64 }
}

/// A word, whose first letter is at this place.
fn read_word(
    pass: &mut Pass,
    bytes: &[u8],
    at: usize,
    word: Word,
) -> Result<(Expectation, usize), JsonFault>
    requires small { length bytes.now < 2 ^ 32 }
    requires takes { Takes bytes.now pass.old.stack pass.old.nodes.items at
        (λ room. value_step room pass.old.stack pass.old.nodes.items at (Sign.Letter word)) }
    ensures { Goes bytes.now at result pass.new.stack pass.new.nodes.items }
{
    match word_end(bytes, at + 1, word.rest()) {
        Ok(end) => {
            add_node(&mut pass.nodes, word.kind(), at, end)?;
            Ok((Expectation::Behind, end))
        }
        Err(wrong) => Err(bad(wrong)),
    }
}

/// A number; its byte at this place leads to the first place.
#[inline(always)]
fn read_number(
    pass: &mut Pass,
    bytes: &[u8],
    at: usize,
    first: NumberPlace,
) -> Result<(Expectation, usize), JsonFault>
    requires small { length bytes.now < 2 ^ 32 }
    requires takes { Takes bytes.now pass.old.stack pass.old.nodes.items at
        (λ room. state_in_token Role.value Kind.Number (Token.in_number first) pass.old.stack pass.old.nodes.items at) }
    ensures { Goes bytes.now at result pass.new.stack pass.new.nodes.items }
{
    let (end, last) = number_end(bytes, at + 1, first);
    if !last.is_last() {
        return Err(bad(end));
    }
    add_node(&mut pass.nodes, Kind::Number, at, end)?;
    Ok((Expectation::Behind, end))
}

/// A text that is a value, whose first quotation mark is at this place.
fn read_text(pass: &mut Pass, bytes: &[u8], at: usize) -> Result<(Expectation, usize), JsonFault>
    requires small { length bytes.now < 2 ^ 32 }
    requires takes { Takes bytes.now pass.old.stack pass.old.nodes.items at
        (λ room. value_step room pass.old.stack pass.old.nodes.items at Sign.Quote) }
    ensures { Goes bytes.now at result pass.new.stack pass.new.nodes.items }
{
    match text_end(bytes, at + 1) {
        Ok(end) => {
            add_node(&mut pass.nodes, Kind::Text, at, end)?;
            Ok((Expectation::Behind, end))
        }
        Err(wrong) => Err(bad(wrong)),
    }
}

/// A key, whose first quotation mark is at this place.
fn read_key(pass: &mut Pass, bytes: &[u8], at: usize) -> Result<(Expectation, usize), JsonFault>
    requires small { length bytes.now < 2 ^ 32 }
    requires takes { Takes bytes.now pass.old.stack pass.old.nodes.items at (λ room. key_step pass.old.stack pass.old.nodes.items at) }
    ensures { Goes bytes.now at result pass.new.stack pass.new.nodes.items }
{
    match text_end(bytes, at + 1) {
        Ok(end) => {
            add_node(&mut pass.nodes, Kind::Text, at, end)?;
            Ok((Expectation::Colon, end))
        }
        Err(wrong) => Err(bad(wrong)),
    }
}

/// Opens an array or object, where one more may be open.
fn open_one(
    pass: &mut Pass,
    bytes: &[u8],
    at: usize,
    bracket: Bracket,
) -> Result<(Expectation, usize), JsonFault>
    requires small { length bytes.now < 2 ^ 32 }
    requires takes { Takes bytes.now pass.old.stack pass.old.nodes.items at
        (λ room. state_at_open room bracket pass.old.stack pass.old.nodes.items at) }
    ensures { Goes bytes.now at result pass.new.stack pass.new.nodes.items }
{
    let _ = bytes;
    if pass.stack.len() >= DEEPEST {
        return Err(JsonFault::Deep { at: at as u64 });
    }
    let node = pass.nodes.len() as u32;
    let start = at as u32;
    pass.stack.push(Open {
        bracket,
        node,
        start,
    })?;
    pass.nodes.push(Node {
        kind: bracket.kind(),
        start,
        end: 0,
        next: 0,
    })?;
    Ok((bracket.first_place(), at + 1))
}

/// Closes the innermost array or object, which has such brackets. After a fault it may be gone.
fn close_one(
    pass: &mut Pass,
    bytes: &[u8],
    at: usize,
    bracket: Bracket,
) -> Result<(Expectation, usize), JsonFault>
    requires small { length bytes.now < 2 ^ 32 }
    requires takes { Takes bytes.now pass.old.stack pass.old.nodes.items at
        (λ room. closed_one bracket pass.old.stack pass.old.nodes.items at) }
    ensures { Goes bytes.now at result pass.new.stack pass.new.nodes.items }
{
    let _ = bytes;
    let Some(one) = pass.stack.pop() else {
        return Err(bad(at));
    };
    if !bracket.is_same(one.bracket) {
        return Err(bad(at));
    }
    let next = pass.nodes.len() as u32;
    pass.nodes[one.node as usize] = Node {
        kind: one.bracket.kind(),
        start: one.start,
        end: at as u32 + 1,
        next,
    };
    Ok((Expectation::Behind, at + 1))
}

/// A comma, which is only in an array or object.
#[inline(always)]
fn separate(pass: &mut Pass, bytes: &[u8], at: usize) -> Result<(Expectation, usize), JsonFault>
    requires takes { Takes bytes.now pass.old.stack pass.old.nodes.items at
        (λ room. state_at_comma pass.old.stack pass.old.nodes.items at) }
    ensures { Goes bytes.now at result pass.new.stack pass.new.nodes.items }
{
    let _ = bytes;
    match pass.stack.last() {
        Some(one) => Ok((one.bracket.next_wanted(), at + 1)),
        None => Err(bad(at)),
    }
}

/// What begins a value.
fn read_value(
    pass: &mut Pass,
    bytes: &[u8],
    at: usize,
    sign: Sign,
) -> Result<(Expectation, usize), JsonFault>
    requires small { length bytes.now < 2 ^ 32 }
    requires takes { Takes bytes.now pass.old.stack pass.old.nodes.items at
        (λ room. value_step room pass.old.stack pass.old.nodes.items at sign) }
    ensures { Goes bytes.now at result pass.new.stack pass.new.nodes.items }
{
    match sign {
        Sign::Digit => read_number(pass, bytes, at, NumberPlace::Whole),
        Sign::Zero => read_number(pass, bytes, at, NumberPlace::Zero),
        Sign::Minus => read_number(pass, bytes, at, NumberPlace::Minus),
        Sign::Quote => read_text(pass, bytes, at),
        Sign::Opening(bracket) => open_one(pass, bytes, at, bracket),
        Sign::Letter(word) => read_word(pass, bytes, at, word),
        _ => Err(bad(at)),
    }
}

/// A token that is not white space.
fn read_token(
    pass: &mut Pass,
    bytes: &[u8],
    at: usize,
    place: Expectation,
    sign: Sign,
) -> Result<(Expectation, usize), JsonFault>
    requires small { length bytes.now < 2 ^ 32 }
    requires black { IsBlack sign }
    requires takes { Takes bytes.now pass.old.stack pass.old.nodes.items at
        (λ room. stand_step room place pass.old.stack pass.old.nodes.items at sign) }
    ensures { Goes bytes.now at result pass.new.stack pass.new.nodes.items }
{
    match place {
        Expectation::Value => read_value(pass, bytes, at, sign),
        Expectation::FirstElement => match sign {
            Sign::Closing(bracket) => close_one(pass, bytes, at, bracket),
            _ => read_value(pass, bytes, at, sign),
        },
        Expectation::FirstKey => match sign {
            Sign::Quote => read_key(pass, bytes, at),
            Sign::Closing(bracket) => close_one(pass, bytes, at, bracket),
            _ => Err(bad(at)),
        },
        Expectation::Key => match sign {
            Sign::Quote => read_key(pass, bytes, at),
            _ => Err(bad(at)),
        },
        Expectation::Colon => match sign {
            Sign::Colon => Ok((Expectation::Value, at + 1)),
            _ => Err(bad(at)),
        },
        Expectation::Behind => match sign {
            Sign::Comma => separate(pass, bytes, at),
            Sign::Closing(bracket) => close_one(pass, bytes, at, bracket),
            _ => Err(bad(at)),
        },
    }
}

/// White space, or a token, from this place on: what may come after it, and its end. After a fault
/// the pass is not to be used.
#[inline(always)]
pub fn step(
    pass: &mut Pass,
    bytes: &[u8],
    at: usize,
    place: Expectation,
) -> Result<(Expectation, usize), JsonFault>
    requires small { length bytes.now < 2 ^ 32 }
    requires within { at < length bytes.now }
    requires reached { Reached bytes.now place pass.old.stack pass.old.nodes.items at }
    ensures { Goes bytes.now at result pass.new.stack pass.new.nodes.items }
{
    // The tokens of an array of numbers come first.
    match place {
        Expectation::Value | Expectation::FirstElement if is_nonzero_digit(bytes[at]) => {
            return read_number(pass, bytes, at, NumberPlace::Whole);
        }
        Expectation::Value if bytes[at] == b'[' => return open_one(
            pass,
            bytes,
            at,
            Bracket::Square,
        ),
        Expectation::Behind if bytes[at] == b',' => return separate(pass, bytes, at),
        Expectation::Behind if bytes[at] == b']' => return close_one(
            pass,
            bytes,
            at,
            Bracket::Square,
        ),
        _ => {}
    }
    match Sign::of(bytes[at]) {
        Sign::Blank => Ok((place, blanks_end(bytes, at + 1))),
        sign => read_token(pass, bytes, at, place, sign),
    }
}

#[inline(always)]
fn is_nonzero_digit(byte: u8) -> bool
    ensures { IsTrue result ↔ byte_sign byte ≡ Sign.Digit }
{
    byte >= b'1' && byte <= b'9'
}

/// Whether the text can end here.
pub fn is_end(pass: &Pass, place: Expectation) -> bool
    ensures { IsTrue result ↔ (IsBehind place × (pass.now.stack ≡ [])) }
{
    is_behind(place) && pass.stack.len() == 0
}

fn is_behind(place: Expectation) -> bool
    ensures { IsTrue result ↔ IsBehind place }
{
    match place {
        Expectation::Behind => true,
        _ => false,
    }
}
