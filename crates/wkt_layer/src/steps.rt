//! One token of a line.

ghost use Rattle.std.specs.Prelude.{◌≡◌, ◌<◌, ◌≤◌, ◌+◌, ◌^◌, ◌++◌, ◌∷◌, [], List, ℕ, None, Ok, Some, length, map};
ghost use Rattle.std.specs.Prelude.{MatchOption, OnOk, IfOk, IsTrue, ◌↔◌, Option};
ghost use Rattle.mm_decimal.specs.AnswerValues.{millimetres_of};
ghost use Rattle.wkt_layer.specs.Tokens.{Number};
ghost use Rattle.sheet_base.specs.Rings.{is_closed, is_same_height};
ghost use Rattle.wkt_layer.specs.Numbers.{Point, does_fit, place_of, height_of};
ghost use Rattle.wkt_layer.specs.Geometries.{last_behind};
ghost use Rattle.wkt_layer.specs.Paths.{Path};
ghost use Rattle.wkt_layer.specs.InsideStates.{State, Spot, IsEnd, state, innermost, point_with, kind_of, may_close};
ghost use Rattle.wkt_layer.specs.InsideStates.{may_end};
ghost use Rattle.wkt_layer.specs.InsideStates.{is_raised, second_leads, bare_leads, bare_second_leads, tagged_step};
ghost use Rattle.wkt_layer.specs.InsideStates.{may_nest};
ghost use Rattle.wkt_layer.specs.InsideStates.{is_geometry_spot, other_fault, word_fault, answer_fault, number_fault};
ghost use Rattle.wkt_layer.specs.InsideStates.{closing_fault, fault_of, tag_step, enter_step, number_step, item_step};
ghost use Rattle.wkt_layer.specs.InsideStates.{whole_step, behind_step, step};
ghost use Rattle.wkt_layer.specs.InsidePasses.{token_for, IsFit, IsUnfit, Shows, Held, IsAtState, Goes, Leads, HasRoom};
ghost use Rattle.wkt_layer.specs.InsidePasses.{BeginsBefore, LeavesRoom, SameSheet};

use crate::limits::DEEPEST;
use crate::pass::LinesRead;
use crate::places::{Content, ItemGroup, Listing, TokenPlace};
use crate::stack::OpenGroups;
use crate::tokens::{Token, TokenKind};
use crate::words::{GeometryKind, LineWord};
use mm_decimal::{MmRead, read_mm};
use sheet_base::{LayerFault, PathKind, are_same_heights, is_closed};
use std::alloc::AllocError;

/// What was read fits: where exact numbers are wanted it is exact.
fn does_fit(read: MmRead, exact: bool) -> bool
    ensures { result ≡ does_fit exact (Ok read) }
{
    if exact { read.exact } else { true }
}

/// The token is a number that fits: it is read, and where exact numbers are wanted it is exact.
fn number(sign: TokenKind, text: &[u8], exact: bool) -> Option<MmRead>
    ensures { MatchOption result (IsUnfit exact sign text.now) (λ read. IsFit exact sign text.now read) }
{
    match sign {
        TokenKind::Number => match read_mm(text) {
            Ok(read) => {
                if does_fit(read, exact) {
                    Some(read)
                } else {
                    None
                }
            }
            Err(_) => None,
        },
        _ => None,
    }
}

/// What the items of the innermost list are.
fn innermost(stack: &OpenGroups) -> ItemGroup
    ensures { result ≡ innermost stack.now }
{
    match stack.last() {
        Some(group) => group,
        None => ItemGroup::Geometries,
    }
}

/// A geometry of this kind may be so deep.
fn may_nest(kind: GeometryKind, stack: &OpenGroups) -> bool
    ensures { result ≡ may_nest kind stack.now }
{
    match kind {
        GeometryKind::Collection => stack.len() < DEEPEST,
        _ => true,
    }
}

/// The kind of a geometry's tag, where one may be so deep.
fn kind_of_tag(stack: &OpenGroups, sign: TokenKind) -> Option<GeometryKind>
    ensures { (paths : List Path) → (at : ℕ) → (text : List ℕ) → MatchOption result
        (tag_step stack.now paths (token_for at text sign) ≡ None)
        (λ kind. tag_step stack.now paths (token_for at text sign) ≡ Some (state (Spot.tagged kind) stack.now paths)) }
{
    match sign {
        TokenKind::Word(word) => match word {
            LineWord::Tag(kind) => {
                if may_nest(kind, stack) {
                    Some(kind)
                } else {
                    None
                }
            }
            _ => None,
        },
        _ => None,
    }
}

/// EMPTY, or the opening bracket of a content.
fn enter(
    pass: &mut LinesRead,
    content: Content,
    token: Token,
) -> Result<Option<TokenPlace>, AllocError>
    ensures goes { (before paths : List Path) → (text : List ℕ) → Held pass.old (before ++ paths) []
        → Goes (enter_step content pass.old.stack paths (token_for token.start text token.sign))
        (token_for token.start text token.sign) token.start before pass.old result pass.new }
    ensures same { OnOk result (SameSheet pass.old pass.new) }
    ensures begins { IfOk result (λ next. MatchOption next (None ≡ next) (λ place. BeginsBefore place 0)) }
{
    match token.sign {
        TokenKind::Word(word) => match word {
            LineWord::Empty => Ok(Some(TokenPlace::Behind)),
            _ => Ok(None),
        },
        TokenKind::Opening => match content {
            Content::Points(listing) => {
                pass.opened = token.start;
                Ok(Some(TokenPlace::First(listing)))
            }
            Content::Items(group) => {
                pass.stack.push(group)?;
                pass.opened = token.start;
                Ok(Some(TokenPlace::Item))
            }
        },
        _ => Ok(None),
    }
}

/// What comes after a tag: Z, or the content of a geometry without heights.
fn behind_tag(
    pass: &mut LinesRead,
    kind: GeometryKind,
    token: Token,
) -> Result<Option<TokenPlace>, AllocError>
    ensures goes { (before paths : List Path) → (text : List ℕ) → Held pass.old (before ++ paths) []
        → Goes (tagged_step kind pass.old.stack paths (token_for token.start text token.sign))
        (token_for token.start text token.sign) token.start before pass.old result pass.new }
    ensures same { OnOk result (SameSheet pass.old pass.new) }
    ensures begins { IfOk result (λ next. MatchOption next (None ≡ next) (λ place. BeginsBefore place 0)) }
{
    match token.sign {
        TokenKind::Word(word) => match word {
            LineWord::Z => Ok(Some(TokenPlace::Content(kind.content(true)))),
            _ => enter(pass, kind.content(false), token),
        },
        _ => enter(pass, kind.content(false), token),
    }
}

/// Among dots of a geometry with Z or without: a point without brackets, or a dot.
fn dot_item(
    pass: &mut LinesRead,
    raised: bool,
    token: Token,
    text: &[u8],
    exact: bool,
) -> Result<Option<TokenPlace>, AllocError>
    ensures goes { (before paths : List Path) → Held pass.old (before ++ paths) []
        → Goes (item_step exact (ItemGroup.Dots raised) pass.old.stack paths (token_for token.start text.now token.sign))
        (token_for token.start text.now token.sign) token.start before pass.old result pass.new }
    ensures same { OnOk result (SameSheet pass.old pass.new) }
    ensures begins { IfOk result (λ next. MatchOption next (None ≡ next) (λ place. BeginsBefore place token.start)) }
{
    match number(token.sign, text, exact) {
        Some(x) => Ok(Some(TokenPlace::BareSecond(raised, x, token.start))),
        None => enter(pass, Content::Points(Listing::Dot { raised }), token),
    }
}

/// An item of the innermost list, or the line's geometry.
fn item(
    pass: &mut LinesRead,
    token: Token,
    text: &[u8],
    exact: bool,
) -> Result<Option<TokenPlace>, AllocError>
    ensures goes { (before paths : List Path) → Held pass.old (before ++ paths) []
        → Goes (item_step exact (innermost pass.old.stack) pass.old.stack paths (token_for token.start text.now token.sign))
        (token_for token.start text.now token.sign) token.start before pass.old result pass.new }
    ensures same { OnOk result (SameSheet pass.old pass.new) }
    ensures begins { IfOk result (λ next. MatchOption next (None ≡ next) (λ place. BeginsBefore place token.start)) }
{
    match innermost(&pass.stack) {
        ItemGroup::Rings { raised } => enter(
            pass,
            Content::Points(Listing::Ring { raised }),
            token,
        ),
        ItemGroup::Lists { raised } => enter(
            pass,
            Content::Points(Listing::List { raised }),
            token,
        ),
        ItemGroup::Polygons { raised } => enter(
            pass,
            Content::Items(ItemGroup::Rings { raised }),
            token,
        ),
        ItemGroup::Dots { raised } => dot_item(pass, raised, token, text, exact),
        ItemGroup::Geometries => match kind_of_tag(&pass.stack, token.sign) {
            Some(kind) => Ok(Some(TokenPlace::Tagged(kind))),
            None => Ok(None),
        },
    }
}

/// The path that points in brackets are.
fn path_kind(listing: Listing) -> PathKind
    ensures { result ≡ kind_of listing }
{
    match listing {
        Listing::Dot { .. } => PathKind::Dot,
        Listing::List { .. } => PathKind::Line,
        Listing::Ring { .. } => PathKind::Loop,
    }
}

/// The points since the last whole path are those of a closed ring, in the plane.
fn is_closed_plane(pass: &LinesRead) -> bool
    requires { pass.now.first ≤ length pass.now.points.items }
    ensures { (done : List Path) → (one : Point) → (more : List Point) → Held pass.now done (one ∷ more)
        → result ≡ is_closed (map place_of (one ∷ more)) }
{
    is_closed(&pass.points[pass.first..])
}

/// The first and the last of these points have one height, or neither has one.
fn has_level_ends(pass: &LinesRead) -> bool
    ensures { (done : List Path) → (one : Point) → (more : List Point) → Held pass.now done (one ∷ more)
        → result ≡ is_same_height (height_of one) (height_of (last_behind one more)) }
{
    let last = pass.points.len().saturating_sub(1);
    are_same_heights(pass.heights.at(pass.first), pass.heights.at(last))
}

/// They are those of a closed ring, in the plane and in height.
fn may_close(pass: &LinesRead) -> bool
    requires { pass.now.first ≤ length pass.now.points.items }
    ensures { (done : List Path) → (one : Point) → (more : List Point) → Held pass.now done (one ∷ more) → result ≡ may_close (one ∷ more) }
{
    if is_closed_plane(pass) {
        has_level_ends(pass)
    } else {
        false
    }
}

/// Points in brackets may end so.
fn may_end(pass: &LinesRead, listing: Listing) -> bool
    requires { pass.now.first ≤ length pass.now.points.items }
    ensures { (done : List Path) → (one : Point) → (more : List Point) → Held pass.now done (one ∷ more)
        → result ≡ may_end listing (one ∷ more) }
{
    match listing {
        Listing::Dot { .. } => true,
        Listing::List { .. } => true,
        Listing::Ring { .. } => may_close(pass),
    }
}

/// What comes after a point in brackets.
fn behind_point(
    pass: &mut LinesRead,
    listing: Listing,
    token: Token,
) -> Result<Option<TokenPlace>, AllocError>
    requires room { HasRoom pass.old token.start }
    requires ends { (token.start < token.end) × (token.end < 2 ^ 32) }
    ensures goes { (before paths : List Path) → (one : Point) → (more : List Point) → (text : List ℕ)
        → Held pass.old (before ++ paths) (one ∷ more)
        → Goes (whole_step listing (one ∷ more) pass.old.stack paths (token_for token.start text token.sign))
        (token_for token.start text token.sign) token.start before pass.old result pass.new }
    ensures room { LeavesRoom result pass.new token.end }
{
    match token.sign {
        TokenKind::Comma => match listing {
            Listing::Dot { .. } => Ok(None),
            Listing::List { .. } => Ok(Some(TokenPlace::First(listing))),
            Listing::Ring { .. } => Ok(Some(TokenPlace::First(listing))),
        },
        TokenKind::Closing => {
            if may_end(pass, listing) {
                pass.end_path(path_kind(listing))?;
                Ok(Some(TokenPlace::Behind))
            } else {
                Ok(None)
            }
        }
        _ => Ok(None),
    }
}

/// What comes after an item.
fn behind_item(pass: &mut LinesRead, token: Token) -> Option<TokenPlace>
    ensures goes { (before paths : List Path) → (text : List ℕ) → Held pass.old (before ++ paths) []
        → Goes (behind_step pass.old.stack paths (token_for token.start text token.sign))
        (token_for token.start text token.sign) token.start before pass.old (Ok result) pass.new }
    ensures same { SameSheet pass.old pass.new }
    ensures begins { MatchOption result (None ≡ result) (λ place. BeginsBefore place 0) }
{
    match token.sign {
        TokenKind::Comma => match pass.stack.last() {
            Some(_) => Some(TokenPlace::Item),
            None => None,
        },
        TokenKind::Closing => match pass.stack.pop() {
            Some(_) => Some(TokenPlace::Behind),
            None => None,
        },
        _ => None,
    }
}

/// The second number of a point in brackets, whose first one was read.
fn second(
    pass: &mut LinesRead,
    listing: Listing,
    first: (MmRead, usize),
    token: Token,
    text: &[u8],
    exact: bool,
) -> Result<Option<TokenPlace>, AllocError>
    requires room { HasRoom pass.old token.start }
    requires begins { first.1 ≤ token.start }
    requires ends { (token.start < token.end) × (token.end < 2 ^ 32) }
    requires size { token.end ≡ token.start + length text.now }
    ensures goes { (before paths : List Path) → (points : List Point) → (x : Number) → Held pass.old (before ++ paths)
        points → millimetres_of x.text ≡ Ok first.0 → first.1 ≡ x.start
        → Goes (number_step exact (λ y. state (second_leads (is_raised listing) listing points x y) pass.old.stack paths)
        (token_for token.start text.now token.sign)) (token_for token.start text.now token.sign)
        token.start before pass.old result pass.new }
    ensures room { LeavesRoom result pass.new token.end }
{
    match number(token.sign, text, exact) {
        Some(y) => {
            if listing.is_raised() {
                Ok(Some(TokenPlace::Third(listing, first.0, y, first.1)))
            } else {
                pass.add_point(first.0, y, None, first.1, token.end)?;
                Ok(Some(TokenPlace::Whole(listing)))
            }
        }
        None => Ok(None),
    }
}

/// The third number of a point in brackets, whose first two were read.
fn third(
    pass: &mut LinesRead,
    listing: Listing,
    read: (MmRead, MmRead, usize),
    token: Token,
    text: &[u8],
    exact: bool,
) -> Result<Option<TokenPlace>, AllocError>
    requires room { HasRoom pass.old token.start }
    requires begins { read.2 ≤ token.start }
    requires ends { (token.start < token.end) × (token.end < 2 ^ 32) }
    requires size { token.end ≡ token.start + length text.now }
    ensures goes { (before paths : List Path) → (points : List Point) → (x y : Number) → Held pass.old (before ++ paths)
        points → millimetres_of x.text ≡ Ok read.0 → millimetres_of y.text ≡ Ok read.1 → read.2 ≡ x.start
        → Goes (number_step exact (λ z. state (Spot.whole listing (points ++ point_with x y (Some z) ∷ []))
        pass.old.stack paths) (token_for token.start text.now token.sign)) (token_for token.start text.now token.sign)
        token.start before pass.old result pass.new }
    ensures room { LeavesRoom result pass.new token.end }
{
    match number(token.sign, text, exact) {
        Some(z) => {
            pass.add_point(read.0, read.1, Some(z), read.2, token.end)?;
            Ok(Some(TokenPlace::Whole(listing)))
        }
        None => Ok(None),
    }
}

/// The second number of a point without brackets, whose first one was read; of a geometry with Z or without.
fn bare_second(
    pass: &mut LinesRead,
    raised: bool,
    first: (MmRead, usize),
    token: Token,
    text: &[u8],
    exact: bool,
) -> Result<Option<TokenPlace>, AllocError>
    requires room { HasRoom pass.old token.start }
    requires begins { first.1 ≤ token.start }
    requires ends { (token.start < token.end) × (token.end < 2 ^ 32) }
    requires size { token.end ≡ token.start + length text.now }
    ensures goes { (before paths : List Path) → (x : Number) → Held pass.old (before ++ paths) []
        → millimetres_of x.text ≡ Ok first.0 → first.1 ≡ x.start
        → Goes (number_step exact (λ y. bare_second_leads raised pass.old.stack paths x y)
        (token_for token.start text.now token.sign)) (token_for token.start text.now token.sign)
        token.start before pass.old result pass.new }
    ensures room { LeavesRoom result pass.new token.end }
{
    match number(token.sign, text, exact) {
        Some(y) => {
            if raised {
                Ok(Some(TokenPlace::BareThird(first.0, y, first.1)))
            } else {
                pass.add_point(first.0, y, None, first.1, token.end)?;
                pass.end_path(PathKind::Dot)?;
                Ok(Some(TokenPlace::BareWhole))
            }
        }
        None => Ok(None),
    }
}

/// The third number of a point without brackets, whose first two were read.
fn bare_third(
    pass: &mut LinesRead,
    read: (MmRead, MmRead, usize),
    token: Token,
    text: &[u8],
    exact: bool,
) -> Result<Option<TokenPlace>, AllocError>
    requires room { HasRoom pass.old token.start }
    requires begins { read.2 ≤ token.start }
    requires ends { (token.start < token.end) × (token.end < 2 ^ 32) }
    requires size { token.end ≡ token.start + length text.now }
    ensures goes { (before paths : List Path) → (x y : Number) → Held pass.old (before ++ paths) []
        → millimetres_of x.text ≡ Ok read.0 → millimetres_of y.text ≡ Ok read.1 → read.2 ≡ x.start
        → Goes (number_step exact (λ z. bare_leads pass.old.stack paths (point_with x y (Some z)))
        (token_for token.start text.now token.sign)) (token_for token.start text.now token.sign)
        token.start before pass.old result pass.new }
    ensures room { LeavesRoom result pass.new token.end }
{
    match number(token.sign, text, exact) {
        Some(z) => {
            pass.add_point(read.0, read.1, Some(z), read.2, token.end)?;
            pass.end_path(PathKind::Dot)?;
            Ok(Some(TokenPlace::BareWhole))
        }
        None => Ok(None),
    }
}

/// The first number of a point in brackets.
fn first(
    pass: &mut LinesRead,
    listing: Listing,
    token: Token,
    text: &[u8],
    exact: bool,
) -> Option<TokenPlace>
    ensures goes { (before paths : List Path) → (points : List Point) → Held pass.old (before ++ paths) points
        → Goes (number_step exact (λ x. state (Spot.second listing points x) pass.old.stack paths)
        (token_for token.start text.now token.sign)) (token_for token.start text.now token.sign) token.start before pass.old
        (Ok result) pass.new }
    ensures same { SameSheet pass.old pass.new }
    ensures begins { MatchOption result (None ≡ result) (λ place. BeginsBefore place token.start) }
{
    let _ = &pass.opened;
    match number(token.sign, text, exact) {
        Some(x) => Some(TokenPlace::Second(listing, x, token.start)),
        None => None,
    }
}

/// What may come after the token, where it fits.
fn next(
    pass: &mut LinesRead,
    place: TokenPlace,
    token: Token,
    text: &[u8],
    exact: bool,
) -> Result<Option<TokenPlace>, AllocError>
    requires room { HasRoom pass.old token.start }
    requires begins { BeginsBefore place token.start }
    requires ends { (token.start < token.end) × (token.end < 2 ^ 32) }
    requires size { token.end ≡ token.start + length text.now }
    ensures goes { (before : List Path) → (s : State) → IsAtState pass.old place before s
        → Goes (step exact s (token_for token.start text.now token.sign)) (token_for token.start text.now token.sign)
        token.start before pass.old result pass.new }
    ensures room { LeavesRoom result pass.new token.end }
{
    match place {
        TokenPlace::Item => item(pass, token, text, exact),
        TokenPlace::Tagged(kind) => behind_tag(pass, kind, token),
        TokenPlace::Content(content) => enter(pass, content, token),
        TokenPlace::First(listing) => Ok(first(pass, listing, token, text, exact)),
        TokenPlace::Second(listing, x, start) => second(
            pass,
            listing,
            (x, start),
            token,
            text,
            exact,
        ),
        TokenPlace::Third(listing, x, y, start) => {
            third(pass, listing, (x, y, start), token, text, exact)
        }
        TokenPlace::Whole(listing) => behind_point(pass, listing, token),
        TokenPlace::BareSecond(raised, x, start) => {
            bare_second(pass, raised, (x, start), token, text, exact)
        }
        TokenPlace::BareThird(x, y, start) => bare_third(pass, (x, y, start), token, text, exact),
        TokenPlace::BareWhole => Ok(behind_item(pass, token)),
        TokenPlace::Behind => Ok(behind_item(pass, token)),
    }
}

/// A geometry may be here.
fn is_geometry_place(stack: &OpenGroups, place: TokenPlace) -> bool
    ensures { (spot : Spot) → Shows place spot → result ≡ is_geometry_spot spot stack.now }
{
    match place {
        TokenPlace::Item => match innermost(stack) {
            ItemGroup::Geometries => true,
            _ => false,
        },
        _ => false,
    }
}

/// The fault of a word that is no tag, where no geometry may be.
fn other_fault(place: TokenPlace, word: LineWord, at: u64) -> LayerFault
    ensures { (spot : Spot) → Shows place spot → result ≡ other_fault word spot at }
{
    match word {
        LineWord::Height => match place {
            TokenPlace::Tagged(_) => LayerFault::Height { at },
            _ => LayerFault::Bad { at },
        },
        _ => LayerFault::Bad { at },
    }
}

/// The fault of a word that does not fit.
fn word_fault(stack: &OpenGroups, place: TokenPlace, word: LineWord, at: u64) -> LayerFault
    ensures { (spot : Spot) → Shows place spot → result ≡ word_fault spot stack.now word at }
{
    match word {
        LineWord::Tag(_) => {
            if is_geometry_place(stack, place) {
                LayerFault::Deep { at }
            } else {
                LayerFault::Bad { at }
            }
        }
        _ => {
            if is_geometry_place(stack, place) {
                LayerFault::Kind { at }
            } else {
                other_fault(place, word, at)
            }
        }
    }
}

/// The fault of a number that was not read, or lost digits, or is not wanted.
fn answer_fault(text: &[u8], at: u64, exact: bool) -> LayerFault
    ensures { result ≡ answer_fault exact (millimetres_of text.now) at }
{
    match read_mm(text) {
        Ok(read) => {
            if exact && !read.exact {
                LayerFault::Inexact { at }
            } else {
                LayerFault::Bad { at }
            }
        }
        Err(fault) => LayerFault::Number { at, fault },
    }
}

/// The fault of a number that does not fit.
fn number_fault(place: TokenPlace, text: &[u8], at: u64, exact: bool) -> LayerFault
    ensures { (spot : Spot) → Shows place spot → result ≡ number_fault exact spot (millimetres_of text.now) at }
{
    match place {
        TokenPlace::Whole(_) => LayerFault::Height { at },
        TokenPlace::BareWhole => LayerFault::Height { at },
        _ => answer_fault(text, at, exact),
    }
}

/// The fault of a closing bracket that does not fit.
fn closing_fault(place: TokenPlace, at: u64, opened: u64) -> LayerFault
    ensures { (spot : Spot) → Shows place spot → result ≡ closing_fault spot at opened }
{
    match place {
        TokenPlace::Whole(_) => LayerFault::Ring { at: opened },
        _ => LayerFault::Bad { at },
    }
}

/// The fault of a token that does not fit.
fn fault(pass: &LinesRead, place: TokenPlace, token: Token, text: &[u8], exact: bool) -> LayerFault
    ensures { (spot : Spot) → Shows place spot
        → result ≡ fault_of exact spot pass.now.stack (token_for token.start text.now token.sign) token.start pass.now.opened }
{
    let at = token.start as u64;
    match token.sign {
        TokenKind::Word(word) => word_fault(&pass.stack, place, word, at),
        TokenKind::Number => number_fault(place, text, at, exact),
        TokenKind::Closing => closing_fault(place, at, pass.opened as u64),
        TokenKind::Opening => LayerFault::Bad { at },
        TokenKind::Comma => LayerFault::Bad { at },
        TokenKind::Stray => LayerFault::Bad { at },
    }
}

/// Reads one token, and answers what may come after it.
pub fn step(
    pass: &mut LinesRead,
    place: TokenPlace,
    token: Token,
    text: &[u8],
    exact: bool,
) -> Result<TokenPlace, LayerFault>
    requires room { HasRoom pass.old token.start }
    requires begins { BeginsBefore place token.start }
    requires ends { (token.start < token.end) × (token.end < 2 ^ 32) }
    requires size { token.end ≡ token.start + length text.now }
    ensures leads { (before : List Path) → (s : State) → IsAtState pass.old place before s
        → Leads exact s (token_for token.start text.now token.sign) token.start before pass.old result pass.new }
    ensures room { IfOk result (λ place. HasRoom pass.new token.end × BeginsBefore place token.end) }
{
    match next(pass, place, token, text, exact)? {
        Some(place) => Ok(place),
        None => Err(fault(pass, place, token, text, exact)),
    }
}

/// A line may end here.
pub fn is_end(pass: &LinesRead, place: TokenPlace) -> bool
    ensures { (before : List Path) → (s : State) → IsAtState pass.now place before s → IsTrue result ↔ IsEnd s }
{
    match place {
        TokenPlace::BareWhole => pass.stack.len() == 0,
        TokenPlace::Behind => pass.stack.len() == 0,
        _ => false,
    }
}
