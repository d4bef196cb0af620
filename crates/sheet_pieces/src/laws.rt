//! Laws of the pieces and images of sheets: each sheet has images, which fit it, and those of pieces are joined.

ghost use Rattle.sheet_pieces.specs.SegmentImages.{PieceImagesAreTheImage};
ghost use Rattle.sheet_pieces.specs.SheetLaws.{PieceImagesAreJoined, SheetPiecesArePieces, ImagesExist, ImagesFit};
ghost use Rattle.sheet_pieces.specs.SheetLaws.{ImageSegmentsArePieces};

/// A law: the images of the pieces of a segment that is inside a sound triangulation are joined. The first begins at
/// the image of the segment's first end, each other where the one before it ends, and the last ends at the image of the
/// last end.
pub fn piece_images_are_joined()
    ensures { PieceImagesAreJoined }
{}

/// A law: where a segment is inside a sound triangulation, the exact images of its points are the points of the
/// segments between the exact images of the ends of its pieces. So the images of the pieces are together the image of
/// the segment.
pub fn piece_images_are_the_image()
    ensures { PieceImagesAreTheImage }
{}

/// A law: each piece of a sheet is a piece of the triangulation, with the rounded images of its own ends.
pub fn sheet_pieces_are_pieces()
    ensures { SheetPiecesArePieces }
{}

/// A law: where all segments of a sheet are inside a sound triangulation, it has images.
pub fn images_exist()
    ensures { ImagesExist }
{}

/// A law: the images of a sheet fit it, where there are fewer than 2^32.
pub fn images_fit()
    ensures { ImagesFit }
{}

/// A law: where all segments of a sheet are inside a sound triangulation, its paths with their images in place of their
/// points have as segments those between the rounded images of the ends of its pieces, in order.
pub fn image_segments_are_pieces()
    ensures { ImageSegmentsArePieces }
{}
