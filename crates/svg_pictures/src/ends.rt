//! The ends of edges in a picture.
ghost use Rattle.std.specs.Prelude.{◌≡◌, ◌+◌, length, take};
ghost use Rattle.edge_words.specs.Letters.{IsLetter};
ghost use Rattle.edge_words.specs.Word.{IsWord};
ghost use Rattle.unfolding.specs.Triangle.{IsCorner, next_corner};
ghost use Rattle.svg_pictures.specs.Ends.{end_of, end_number};
ghost use Rattle.svg_pictures.specs.UnfoldingPicture.{AreEnds};

use crate::drawn::DrawnTriangle;
use crate::picture_point::PicturePoint;
use crate::side::Side;
use edge_words::MAX_LETTERS;

/// One end of each edge, as the triangle before the edge is drawn, and then some of no meaning.
pub fn ends(edges: &[u8], triangles: &[DrawnTriangle], side: Side) -> [PicturePoint; MAX_LETTERS]
    requires word { IsWord edges.now }
    requires count { length triangles.now ≡ length edges.now + 1 }
    ensures { AreEnds edges.now (end_of side edges.now) triangles.now (take (length edges.now) result) }
{
    let mut points = [PicturePoint::default(); MAX_LETTERS];
    for j in 0..edges.len() {
        points[j] = triangles[j].point(number_of_end(side, edges[j], j));
    }
    points
}

/// The number of the corner at which an end of an edge stands in triangle `j`, from which the path goes over the edge.
/// Triangles of even number run counterclockwise, those of odd number clockwise.
fn number_of_end(side: Side, edge: u8, j: usize) -> u8
    requires { IsLetter edge }
    ensures number { result ≡ end_number side edge j }
    ensures corner { IsCorner result }
{
    let after = corner_after(edge);
    let before = corner_after(after);
    let is_counterclockwise = j % 2 == 0;
    match side {
        Side::Upper => if is_counterclockwise { before } else { after },
        Side::Lower => if is_counterclockwise { after } else { before },
    }
}

/// The corner after `corner`, where 1 comes after 3.
pub(crate) fn corner_after(corner: u8) -> u8
    requires { IsCorner corner }
    ensures next { result ≡ next_corner corner }
    ensures corner { IsCorner result }
{
    if corner == 3 { 1 } else { corner + 1 }
}
