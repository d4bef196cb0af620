//! The two sides of a change: its pieces as they are written, their paths' places and their gap.

ghost use Rattle.std.specs.Prelude.{◌≡◌, ◌↔◌, ◌≤◌, length, IsTrue};
ghost use Rattle.change_places.specs.Words.{change_words};
ghost use Rattle.change_places.specs.Laws.{IsChangeHeld};
ghost use Rattle.place_runs.specs.Places.{printed_of};
ghost use Rattle.place_runs.specs.InsideMaps.{IsSpotOn};
ghost use Rattle.place_runs.specs.InsidePieces.{HasPiece, HasPieces, IsPieceAt, AreAllNear, is_printed, no_spot, spot_at, side_at};

use crate::change_maps::ChangeMap;
use crate::views::View;
use change_places::{ChangeSpot, PathSpot, SideSpot, change_fits};
use seg_gap::{gap, nearest_end};
use sheet_base::Listed;
use tin_base::{Change, Piece, Place};

// Whether a place is before another: by the layer, the path, the segment and the piece.
fn is_before(one: Place, other: Place) -> bool {
    if one.layer != other.layer {
        return one.layer < other.layer;
    }
    if one.path != other.path {
        return one.path < other.path;
    }
    if one.segment != other.segment {
        return one.segment < other.segment;
    }
    one.piece < other.piece
}

// Where the piece of this place is, if the pieces are in order of their places.
fn likely_number(pieces: &[Piece], place: Place) -> usize
    ensures { result ≤ length pieces.now }
{
    let mut from = 0;
    let mut past = pieces.len();
    while from < past {
        let middle = from + (past - from) / 2;
        if is_before(pieces[middle].from, place) {
            from = middle + 1;
        } else {
            past = middle;
        }
    }
    from
}

// Whether the piece has this place.
fn is_at(piece: Piece, place: Place) -> bool
    ensures { IsTrue result ↔ (piece.from ≡ place) }
{
    piece.from == place
}

// The first piece of this place, which there is.
fn first_at(pieces: &[Piece], place: Place) -> Piece
    requires { HasPiece pieces.now place }
    ensures { IsPieceAt pieces.now place result }
{
    for piece in pieces {
        if is_at(*piece, place) {
            return *piece;
        }
    }
    unreachable!()
}

// The piece of this place, which there is. Where it is not where it is likely to be, all pieces are looked through.
fn piece_at(pieces: &[Piece], place: Place) -> Piece
    requires { HasPiece pieces.now place }
    ensures { IsPieceAt pieces.now place result }
{
    if let Some(piece) = pieces.get(likely_number(pieces, place)) {
        if is_at(*piece, place) {
            return *piece;
        }
    }
    first_at(pieces, place)
}

/// Where no path is written.
pub fn no_spot() -> PathSpot
    ensures { result ≡ no_spot }
{
    PathSpot {
        at: None,
        feature: None,
        id: None,
        name: None,
    }
}

/// Where the path of this number is written, which is one of this layer.
pub fn path_spot(places: &[Listed<PathSpot>], layer: u32, path: u32) -> PathSpot
    ensures { result ≡ spot_at places.now layer path }
{
    match places.get(layer as usize) {
        Some(own) => match own.items().get(path as usize) {
            Some(spot) => *spot,
            None => no_spot(),
        },
        None => no_spot(),
    }
}

// A side of a change, of this piece.
fn side(piece: Piece, places: &[Listed<PathSpot>]) -> SideSpot
    ensures { result ≡ side_at places.now piece }
{
    SideSpot {
        from: piece.from,
        spot: path_spot(places, piece.from.layer, piece.from.path),
        a: piece.ia,
        b: piece.ib,
    }
}

/// The two sides of a change, its relations, the gap of its written segments and its place.
pub fn spot(map: &ChangeMap, change: Change) -> ChangeSpot
    requires pieces { HasPieces map.now.pieces.items change }
    requires near { AreAllNear map.now.pieces.items }
    ensures spot { IsSpotOn map.now change (change_words map.now.texts.items result) }
    ensures held { IsChangeHeld (change_words map.now.texts.items result) }
{
    let p = piece_at(&map.pieces, change.first);
    let q = piece_at(&map.pieces, change.second);
    let spot = ChangeSpot {
        first: side(p, &map.places),
        second: side(q, &map.places),
        was: change.was,
        now: change.now,
        gap: gap(p.ia, p.ib, q.ia, q.ib),
        place: nearest_end(p.ia, p.ib, q.ia, q.ib),
    };
    change_fits(&map.texts, spot);
    spot
}

// Whether the change is printed.
fn is_printed(view: &View, change: Change) -> bool
    ensures { result ≡ is_printed view.now change }
{
    !view.across || change.first.layer != change.second.layer
}

/// Lets the changes go that are not printed.
pub fn keep_printed(view: &View, changes: &mut Vec<Change>)
    ensures { changes.new.items ≡ printed_of view.now changes.old.items }
{
    changes.retain(|change| is_printed(view, *change));
}
